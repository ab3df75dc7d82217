//! Which artist sends which command.
ghost use Rattle.std.specs.Prelude.{◌≡◌, ◌<◌};
ghost use Rattle.artists.specs.Shares.{stroke_no, artist_of};

use doc_model::Command;

/// The number of the stroke that the command is of, or else 0.
fn number_of(command: &Command) -> u32
    ensures { result ≡ stroke_no command.now }
{
    match command {
        Command::Stroke { no, .. } => *no,
        Command::Add { no, .. } => *no,
        Command::End { no } => *no,
        Command::Cancel { no } => *no,
        _ => 0,
    }
}

/// Of so many artists, the one who sends the command: those of stroke S are of artist S mod their number,
/// all others of artist 0.
pub fn artist_for(artists: u8, command: &Command) -> u32
    requires { 0 < artists }
    ensures { result ≡ artist_of artists command.now }
{
    number_of(command) % u32::from(artists)
}

//! Scripts of two numbers, against texts made by another program from the same rules.

use demo_gen::script_of;
use doc_model::Command;
use script_text::{Script, print};
use std::alloc::Global;

const TREE: &[u8] =
    b"canvas 800 600 ffffff\ngroup 1 0 0\ngroup 2 0 1\nlayer 3 1 0\nlayer 4 1 1\nlayer 5 2 0\nlayer 6 2 1\nlayer 7 0 2\nlayer 8 0 3\n";

/// How many entries the commands make.
fn entries(script: &Script) -> usize {
    script
        .commands()
        .iter()
        .filter(|c| {
            !matches!(
                c,
                Command::Add { .. } | Command::End { .. } | Command::Cancel { .. }
            )
        })
        .count()
}

/// The entries, and the text.
fn made(alloc: Global, number: u32) -> Option<(usize, Vec<u8>)> {
    let Ok(script) = script_of(alloc, number) else {
        return None;
    };
    let Ok(text) = print(alloc, &script) else {
        return None;
    };
    Some((entries(&script), text))
}

fn is_as_told(alloc: Global, number: u32, len: usize, strokes: &[u8], end: &[u8]) -> bool {
    let Some((entries, text)) = made(alloc, number) else {
        return false;
    };
    let Some(rest) = text.as_slice().strip_prefix(TREE) else {
        return false;
    };
    entries == 66 && text.len() == len && rest.starts_with(strokes) && rest.ends_with(end)
}

#[test]
fn scripts_of_numbers(rt: HostRuntime) {
    assert!(rt;
        is_as_told(
            rt.alloc(),
            0,
            45079,
            b"stroke 1 8\ndab 1 con 65 75 24 soft 11746ddb erase 255\ndab 1 con 195 75 35 soft e09b4f52 over 255\n",
            b"end 40\nundo\nredo\nlook 4 144 screen on\nexport\n",
        )
    );
    assert!(rt;
        is_as_told(
            rt.alloc(),
            1,
            45045,
            b"stroke 1 5\ndab 1 con 65 75 33 soft cce65af3 over 255\ndab 1 con 195 75 22 soft 29bafbf2 over 255\n",
            b"end 40\nundo\nredo\nlook 6 131 addition on\nexport\n",
        )
    );
}

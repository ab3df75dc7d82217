//! A live view of tiles: readers look at them while one writer changes them.
//!
//! # Decisions
//!
//! - Readers look at two copies of the root's tiles, over the kit's `left_right` as it is: one is read with no
//!   lock and no wait, the other is changed by the one writer, and a publish swaps them.
//! - A wall has a token of the list of what was published (`past_core`): it says that the list began with these
//!   rows. `left_right` alone can't tie a reader to its writer, so writer, readers and what is told have a name
//!   that stands for one list. The caller of `LiveOpened::named` picks it, as a type parameter, so what goes to
//!   another thread keeps it.
//! - That a look is of all that the reader knows is seen at run time: the wall's version is compared with the
//!   reader's. Both are beginnings of one list and no row is empty, so as many updates means that the one begins
//!   with the other. An older wall would be refused and counted; that doesn't happen, and no clause says so.
//! - A row is listed, marked on the wall by its token, and shown, in this order (`RowStage`), and a step that
//!   fails is tried again by the next publish alone. The mark may want memory, for which `left_right` has no
//!   call to take room beforehand, so `publish` may answer `NoMemory`, and `put` takes nothing more until one
//!   has succeeded. A row isn't marked earlier, since a look would then no longer show whole publishes.
//! - A writer isn't `Drop`: it is ended by `close`, which waits for a reader that looks.
#![tactic(auto)]

mod press;
mod reader;
mod row;
mod rule;
mod told;
mod update;
mod wall;
mod writer;

pub use past_core::Naming;
pub use reader::{LiveReader, Shown};
pub use told::Told;
pub use update::Update;
pub use writer::{LiveOpened, LiveWriter, NoPlace, open_live};

//! The queue.

ghost use Rattle.std.specs.Prelude.{◌≡◌, ◌+◌, ◌<◌, ◌≤◌, true, false, Some, None, List, [], ◌∷◌, ◌++◌, map, drop, length, slice_get, option_copied, option_map, IsNone, IsSomeAnd, ◌↔◌, OnOk, OnErr, vec_len, vec_capacity};
ghost use Rattle.std.specs.List.{list_any, list_all};
ghost use Rattle.std.specs.VecDeque.{deque_len, deque_capacity};
ghost use Rattle.slab.specs.Slab.{get, HasRoomFor, SameValues, Updates};
ghost use Rattle.entry_queue.specs.Keys.{HasWaiting};
ghost use Rattle.entry_queue.specs.Pushed.{TakesJob, after_job, grown, is_shut, is_shut_if};
ghost use Rattle.entry_queue.specs.declared.entry.Entry.TheVariants.{Waiting, Whole, Other};
ghost use Rattle.doc_model.specs.Feeding.{lawful};
ghost use Rattle.doc_model.specs.Jobs.{checks};
ghost use Rattle.doc_model.specs.declared.command.Command.{Command};

use crate::Entry;
use crate::waiting_keys::WaitingKeys;
use doc_model::{Command, Job, Kind, Outcome};
use geom_core::NoMemory;
use slab::Slab;
use std::alloc::Global;
use std::collections::VecDeque;
use std::marker::Model;
use stroke_core::{AddFault, ClosedStroke, OpenStroke};

/// The entries that have no outcome yet, in order, and the outcomes so far.
///
/// Room for the outcome of each entry is taken when the entry is pushed.
#[derive(Drop)]
pub struct Queue {
    entries: Slab<Entry>,
    keys: VecDeque<usize>,
    waiting: WaitingKeys,
    outcomes: Vec<Outcome>,
    alloc: Global,
}

impl Model for Queue {
    ghost use Rattle.std.specs.Prelude.{◌+◌, ◌≤◌, length, vec_len, vec_capacity};
    ghost use Rattle.std.specs.Ordering.{nat_cmp};
    ghost use Rattle.std.specs.BTreeMap as tree;
    ghost use Rattle.slab.specs.Slab as slab;
    ghost use Rattle.entry_queue.specs.Pushed.{Pending};
    ghost use Rattle.entry_queue.specs.Keys.{entries_at, IsIndexed};

    ghost Value = { Pending };

    ghost view = { λ q. record { left = entries_at (slab.get q.entries) q.keys.items; outcomes = q.outcomes.items } };

    ghost invariant = { λ q. IsIndexed (slab.get q.entries) (tree.get nat_cmp q.waiting.keys) q.keys.items × (vec_len q.outcomes + length q.keys.items ≤ vec_capacity q.outcomes) };
}

impl Queue {
    ghost use Rattle.entry_queue.specs.Pushed.{pushed, takes, may_leave, begun, with_job, closed, has_room, is_waiting, is_numbered, StandsFor};

    /// No entry and no outcome.
    pub fn new(alloc: Global) -> Queue
        ensures value { result ≡ record { left = []; outcomes = [] } }
        ensures stands { StandsFor [] result }
    {
        Queue {
            entries: Slab::new(alloc),
            keys: VecDeque::new(alloc),
            waiting: WaitingKeys::new(alloc),
            outcomes: Vec::new(alloc),
            alloc,
        }
    }

    /// Does what the command says: a new entry at the end, one more job of a waiting stroke, or its
    /// close. That a job conflicts is no error here; the stroke then has the pair.
    ///
    /// # Errors
    /// `NoMemory`; all is as it was.
    pub fn push(&mut self, command: &Command) -> Result<(), NoMemory>
        requires { takes self.old.left command.now ≡ true }
        ensures ok { OnOk result (self.new ≡ record self.old {
          left = pushed self.old.left command.now;
        }) }
        ensures err { OnErr result (self.new ≡ self.old) }
        ensures stands { (before : List Command) → lawful (before ++ command.now ∷ []) ≡ true
            → StandsFor before self.old → OnOk result (StandsFor (before ++ command.now ∷ [])
            self.new) }
    {
        match command {
            Command::Stroke {
                no,
                layer,
                exclusive,
            } => self.open(*no, *layer, *exclusive),
            Command::Add { no, kind, job } => self.add(*no, *kind, job),
            Command::End { no } => {
                self.close(*no, false);
                Ok(())
            }
            Command::Cancel { no } => {
                self.close(*no, true);
                Ok(())
            }
            other => self.append(*other),
        }
    }

    /// The entry that is first of those left. None where none is.
    pub fn head(&self) -> Option<&Entry>
        ensures none { IsNone result ↔ (self.now.left ≡ []) }
        ensures value { option_copied result ≡ slice_get self.now.left 0 }
    {
        self.entries.get(*self.keys.front()?)
    }

    /// Whether none of the entries that are left takes jobs any more. No memory, and a look-up for each of
    /// them.
    pub fn all_shut(&self) -> bool
        ensures { result ≡ list_all is_shut self.now.left }
    {
        let (first, second) = self.keys.as_slices();
        all_shut(&self.entries, first) && all_shut(&self.entries, second)
    }

    /// Ends the first entry with that outcome.
    pub fn pop(&mut self, outcome: Outcome)
        requires { may_leave self.old.left ≡ true }
        ensures left { self.new.left ≡ drop 1 self.old.left }
        ensures outcomes { self.new.outcomes ≡ self.old.outcomes ++ outcome ∷ [] }
        ensures stands { (before : List Command) → StandsFor before self.old → StandsFor before
            self.new }
    {
        let Some(key) = self.keys.pop_front() else {
            unreachable!()
        };
        self.entries.try_remove(key);
        match self.outcomes.push(outcome) {
            Ok(()) => {}
            Err(_) => unreachable!(),
        }
    }

    /// The outcomes so far, in order.
    pub fn outcomes(&self) -> &[Outcome]
        ensures { result.now ≡ self.now.outcomes }
    {
        self.outcomes.as_slice()
    }

    /// The outcomes so far, in order, and no more.
    pub fn into_outcomes(self) -> Vec<Outcome>
        ensures { result.items ≡ self.outcomes }
    {
        let Queue { outcomes, .. } = self;
        outcomes
    }

    /// A new waiting stroke.
    fn open(&mut self, no: u32, layer: u16, exclusive: bool) -> Result<(), NoMemory>
        requires { list_any (is_numbered no) self.old.left ≡ false }
        ensures ok { OnOk result (self.new ≡ record self.old {
          left = self.old.left ++ Waiting (begun no layer exclusive) ∷ [];
        }) }
        ensures err { OnErr result (self.new ≡ self.old) }
    {
        let stroke = OpenStroke::new(self.alloc, no, layer, exclusive);
        take_room(&mut self.entries, &mut self.keys, &mut self.outcomes)?;
        self.waiting.insert(no, self.entries.vacant_key())?;
        add_last(&mut self.entries, &mut self.keys, Entry::Waiting(stroke));
        Ok(())
    }

    /// A new entry that is no stroke.
    fn append(&mut self, command: Command) -> Result<(), NoMemory>
        ensures ok { OnOk result (self.new ≡ record self.old {
          left = self.old.left ++ Other command ∷ [];
        }) }
        ensures err { OnErr result (self.new ≡ self.old) }
    {
        take_room(&mut self.entries, &mut self.keys, &mut self.outcomes)?;
        add_last(&mut self.entries, &mut self.keys, Entry::Other(command));
        Ok(())
    }

    /// One more job of a waiting stroke.
    fn add(&mut self, no: u32, kind: Kind, job: &Job) -> Result<(), NoMemory>
        requires checked { checks job.now ≡ true }
        requires room { list_any (has_room no) self.old.left ≡ true }
        ensures ok { OnOk result (self.new ≡ record self.old
            { left = map (with_job no (kind, job.now)) self.old.left }) }
        ensures err { OnErr result (self.new ≡ self.old) }
    {
        let Some(key) = self.waiting.get(no) else {
            unreachable!()
        };
        feed(&mut self.entries, key, kind, job)
    }

    /// Closes a waiting stroke.
    fn close(&mut self, no: u32, cancelled: bool)
        requires { list_any (is_waiting no) self.old.left ≡ true }
        ensures { self.new ≡ record self.old { left = map (closed no cancelled) self.old.left } }
    {
        let Some(key) = self.waiting.remove(no) else {
            unreachable!()
        };
        // It goes back under the same key, which is the slab's next.
        let stroke = take_waiting(&mut self.entries, key);
        self.entries
            .insert_reserved(Entry::Whole(close(stroke, cancelled)));
    }
}

/// Whether none of the entries under these keys takes jobs any more.
fn all_shut(entries: &Slab<Entry>, keys: &[usize]) -> bool
    ensures { result ≡ list_all (λ k. is_shut_if (get entries.now k)) keys.now }
{
    keys.iter().all(|key| is_shut_at(entries, *key))
}

/// Whether the entry under a key, if there is one, takes no job any more.
fn is_shut_at(entries: &Slab<Entry>, key: usize) -> bool
    ensures { result ≡ is_shut_if (get entries.now key) }
{
    match entries.get(key) {
        Some(Entry::Waiting(_)) => false,
        Some(Entry::Whole(_)) | Some(Entry::Other(_)) => true,
        None => true,
    }
}

/// Adds a job to the waiting stroke under that key, where it stands.
fn feed(entries: &mut Slab<Entry>, key: usize, kind: Kind, job: &Job) -> Result<(), NoMemory>
    requires checked { checks job.now ≡ true }
    requires room { IsSomeAnd (get entries.old key) TakesJob }
    ensures ok { OnOk result (Updates entries.old entries.new key
        (option_map (after_job (kind, job.now)) (get entries.old key))) }
    ensures err { OnErr result (SameValues entries.old entries.new) }
{
    match entries.get_mut(key) {
        Some(entry) => feed_entry(entry, kind, job),
        None => unreachable!(),
    }
}

/// Adds a job to a waiting stroke.
fn feed_entry(entry: &mut Entry, kind: Kind, job: &Job) -> Result<(), NoMemory>
    requires checked { checks job.now ≡ true }
    requires room { TakesJob entry.old }
    ensures ok { OnOk result (entry.new ≡ after_job (kind, job.now) entry.old) }
    ensures err { OnErr result (entry.new ≡ entry.old) }
{
    match entry {
        Entry::Waiting(stroke) => add_job(stroke, kind, job),
        _ => unreachable!(),
    }
}

/// Adds a job. That it conflicts is no error here.
fn add_job(stroke: &mut OpenStroke, kind: Kind, job: &Job) -> Result<(), NoMemory>
    requires checked { checks job.now ≡ true }
    requires room { length stroke.old.jobs < 4096 }
    ensures ok { OnOk result (stroke.new ≡ grown stroke.old (kind, job.now)) }
    ensures err { OnErr result (stroke.new ≡ stroke.old) }
{
    match stroke.add(kind, *job) {
        Err(AddFault::NoMemory) => Err(NoMemory),
        Ok(()) | Err(AddFault::Overlap { .. }) => Ok(()),
    }
}

fn close(stroke: OpenStroke, cancelled: bool) -> ClosedStroke
    ensures { result ≡ record { stroke = stroke; cancelled = cancelled } }
{
    if cancelled {
        stroke.cancel()
    } else {
        stroke.end()
    }
}

/// Takes the waiting stroke under that key out, so that the key is the slab's next.
fn take_waiting(entries: &mut Slab<Entry>, key: usize) -> OpenStroke
    requires { HasWaiting (get entries.old) key }
    ensures stroke { get entries.old key ≡ Some (Waiting result) }
    ensures entries { Updates entries.old entries.new key None }
    ensures next { entries.new.vacant_key ≡ key }
    ensures room { HasRoomFor entries.new 1 }
{
    match entries.try_remove(key) {
        Some(Entry::Waiting(stroke)) => stroke,
        _ => unreachable!(),
    }
}

/// Takes room for one more entry, and for the outcomes of it and of all that are left.
fn take_room(
    entries: &mut Slab<Entry>,
    keys: &mut VecDeque<usize>,
    outcomes: &mut Vec<Outcome>,
) -> Result<(), NoMemory>
    requires { vec_len outcomes.old + length keys.old.items ≤ vec_capacity outcomes.old }
    ensures entries { entries.new.slots ≡ entries.old.slots }
    ensures keys { keys.new.items ≡ keys.old.items }
    ensures outcomes { outcomes.new.items ≡ outcomes.old.items }
    ensures room { vec_len outcomes.new + length keys.new.items ≤ vec_capacity outcomes.new }
    ensures one_entry { OnOk result (HasRoomFor entries.new 1) }
    ensures one_key { OnOk result (deque_len keys.new < deque_capacity keys.new) }
    ensures one_outcome { OnOk result (vec_len outcomes.new + length keys.new.items + 1 ≤
        vec_capacity outcomes.new) }
{
    outcomes.reserve(keys.len() + 1)?;
    keys.reserve(1)?;
    entries.reserve(1)?;
    Ok(())
}

/// Adds an entry at the end, under the slab's next key.
fn add_last(entries: &mut Slab<Entry>, keys: &mut VecDeque<usize>, entry: Entry)
    requires entries { HasRoomFor entries.old 1 }
    requires keys { deque_len keys.old < deque_capacity keys.old }
    ensures vacant { get entries.old entries.old.vacant_key ≡ None }
    ensures entries { Updates entries.old entries.new entries.old.vacant_key (Some entry) }
    ensures keys { keys.new.items ≡ keys.old.items ++ entries.old.vacant_key ∷ [] }
{
    let key = entries.insert_reserved(entry);
    match keys.push_back(key) {
        Ok(()) => {}
        Err(_) => unreachable!(),
    }
}

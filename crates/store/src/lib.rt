// A store with the memory that its caller lends it, and its calls as methods. Each is the plain call on the same numbers; the
// state that a call leaves stays in the store, and a call that refuses leaves it as it was.
#![tactic(auto)]

ghost use Rattle.std.specs.Prelude.{◌≡◌};
ghost use Rattle.model.specs.Calls as calls;
ghost use Rattle.model.specs.Walk as walk;
ghost use Rattle.model.specs.Walk.AfterScan.{after};
ghost use Rattle.model.specs.Iterators as iterators;
ghost use Rattle.model.specs.Sequences.{world};
ghost use Rattle.model.specs.Verify as whole;
ghost use Rattle.model.specs.Repair as mended;
ghost use Rattle.store.specs.Stores.{world_of, SameBuffers, on, left, kept, stepped, started, noted};

use dict_delete::delete::delete;
use dict_find_update::find::find;
use dict_find_update::update::update;
use dict_grow::add::add;
use dict_grow::allow::allow_resize;
use dict_rehash::rehash::rehash_step;
use dict_scan::scan::scan;
use dict_suggest_look::current_table::current_table;
use dict_suggest_look::suggest::suggested_size;
use dict_tables::init::{init, no_state};
use dict_tables::resize::resize;
use iterator::iterate::iterate;
use iterator::plain::{begin_iterator, end_iterator};
use iterator::safe::{begin_safe, end_safe};
use model::{Error, ScanError, State};
use repair::repair::repair;
use verify::verify::verify;

// What a method lends for change goes on to a call that only reads some of it.
fn update_lent(
    first: &mut [u32],
    second: &mut [u32],
    entries: &mut [u32],
    s: State,
    key: u32,
    value: u32,
) -> Result<(), Error>
    ensures { calls.After.after result first.new second.new entries.new
        ≡ calls.update s first.old second.old entries.old key value }
{
    update(first, second, entries, s, key, value)
}

fn resize_lent(
    first: &mut [u32],
    second: &mut [u32],
    entries: &mut [u32],
    s: State,
    size: u32,
) -> Result<State, Error>
    ensures { calls.After.after result first.new second.new entries.new
        ≡ calls.resize s first.old second.old entries.old size }
{
    resize(first, second, entries, s, size)
}

// The state, the two bucket buffers and the entry buffer (SPECIFICATION, "The memory").
#[derive(Drop)]
pub struct Store<'a> {
    pub state: State,
    pub first: &'a mut [u32],
    pub second: &'a mut [u32],
    pub entries: &'a mut [u32],
}

impl<'a> Store<'a> {
    // Memory in which no store has started: its state is zeros, so that every call but `init` refuses.
    pub fn new(first: &'a mut [u32], second: &'a mut [u32], entries: &'a mut [u32]) -> Store<'a>
        ensures lent { world_of result ≡ world calls.no_state first.old second.old entries.old }
        ensures same_buffers { (result.first.ghost_name ≡ first.entry.ghost_name)
            × (result.second.ghost_name ≡ second.entry.ghost_name) × (result.entries.ghost_name ≡ entries.entry.ghost_name) }
    {
        Store {
            state: no_state(),
            first,
            second,
            entries,
        }
    }

    // Starts the store anew, without a key.
    pub fn init(&mut self, capacity: u32, size: u32) -> Result<(), Error>
        ensures outcome { (result, world_of self.new)
            ≡ started self.old.state (calls.init self.old.first.now self.old.second.now self.old.entries.now capacity size) }
        ensures same_buffers { SameBuffers self.old self.new }
    {
        let begun = init(self.first, self.second, self.entries, capacity, size);
        match begun {
            Ok(t) => {
                self.state = t;
                Ok(())
            }
            Err(refused) => Err(refused.error),
        }
    }

    // The key's value.
    pub fn find(&self, key: u32) -> Result<u32, Error>
        ensures { result ≡ on self.now calls.find key }
    {
        find(self.first, self.second, self.entries, self.state, key)
    }

    // Another value for a key that is held.
    pub fn update(&mut self, key: u32, value: u32) -> Result<(), Error>
        ensures outcome { (result, world_of self.new) ≡ left self.old.state (on self.old calls.update key value) }
        ensures same_buffers { SameBuffers self.old self.new }
    {
        let s = self.state;
        update_lent(self.first, self.second, self.entries, s, key, value)
    }

    // A key that is not held yet, with its value; the table may grow.
    pub fn add(&mut self, key: u32, value: u32) -> Result<(), Error>
        ensures outcome { (result, world_of self.new) ≡ kept self.old.state (on self.old calls.add key value) }
        ensures same_buffers { SameBuffers self.old self.new }
    {
        let s = self.state;
        self.state = add(self.first, self.second, self.entries, s, key, value)?;
        Ok(())
    }

    pub fn delete(&mut self, key: u32) -> Result<(), Error>
        ensures outcome { (result, world_of self.new) ≡ kept self.old.state (on self.old calls.delete key) }
        ensures same_buffers { SameBuffers self.old self.new }
    {
        let s = self.state;
        self.state = delete(self.first, self.second, self.entries, s, key)?;
        Ok(())
    }

    // Begins a rehash into a table of that size.
    pub fn resize(&mut self, size: u32) -> Result<(), Error>
        ensures outcome { (result, world_of self.new) ≡ kept self.old.state (on self.old calls.resize size) }
        ensures same_buffers { SameBuffers self.old self.new }
    {
        let s = self.state;
        self.state = resize_lent(self.first, self.second, self.entries, s, size)?;
        Ok(())
    }

    // How many entries moved. The state says whether the rehash goes on.
    pub fn rehash_step(&mut self) -> Result<u32, Error>
        ensures outcome { (result, world_of self.new) ≡ stepped self.old.state (on self.old calls.rehash_step) }
        ensures same_buffers { SameBuffers self.old self.new }
    {
        let s = self.state;
        let (moved, t) = rehash_step(self.first, self.second, self.entries, s)?;
        self.state = t;
        Ok(moved)
    }

    // The size that a resize should take.
    pub fn suggested_size(&self, growing: bool) -> Result<u32, Error>
        ensures { result ≡ on self.now calls.suggested_size growing }
    {
        suggested_size(self.first, self.second, self.entries, self.state, growing)
    }

    // Whether the table may grow by itself.
    pub fn allow_resize(&mut self, allowed: bool) -> Result<(), Error>
        ensures outcome { (result, world_of self.new) ≡ noted self.old (on self.old calls.allow_resize allowed) }
        ensures same_buffers { SameBuffers self.old self.new }
    {
        self.state = self.allowed(allowed)?;
        Ok(())
    }

    // The next cursor, and how many keys are in the list, each with its value.
    pub fn scan(&self, list: &mut [u32], cursor: u32) -> Result<(u32, u32), ScanError>
        ensures { after result list.new ≡ on self.now walk.scan list.old cursor }
    {
        let s = self.state;
        scan(self.first, self.second, self.entries, list, s, cursor)
    }

    // The next place of an iterator, and how many keys are in the list, each with its value.
    pub fn iterate(&self, list: &mut [u32], place: u32) -> Result<(u32, u32), ScanError>
        ensures { after result list.new ≡ on self.now iterators.iterate list.old place }
    {
        let s = self.state;
        iterate(self.first, self.second, self.entries, list, s, place)
    }

    // The fingerprint that the iterator's end asks for.
    pub fn begin_iterator(&self) -> Result<u64, Error>
        ensures { result ≡ on self.now iterators.begin_iterator }
    {
        begin_iterator(self.first, self.second, self.entries, self.state)
    }

    pub fn end_iterator(&self, fingerprint: u64) -> Result<(), Error>
        ensures { result ≡ on self.now iterators.end_iterator fingerprint }
    {
        let s = self.state;
        end_iterator(self.first, self.second, self.entries, s, fingerprint)
    }

    // One safe iterator more: while there are any, no key moves.
    pub fn begin_safe(&mut self) -> Result<(), Error>
        ensures outcome { (result, world_of self.new) ≡ noted self.old (on self.old iterators.begin_safe) }
        ensures same_buffers { SameBuffers self.old self.new }
    {
        self.state = self.one_safe_more()?;
        Ok(())
    }

    pub fn end_safe(&mut self) -> Result<(), Error>
        ensures outcome { (result, world_of self.new) ≡ noted self.old (on self.old iterators.end_safe) }
        ensures same_buffers { SameBuffers self.old self.new }
    {
        self.state = self.one_safe_fewer()?;
        Ok(())
    }

    // The buckets of the live table, none where the state is not sound.
    pub fn current_table(&self) -> &[u32]
        ensures { result.now ≡ on self.now calls.current_table }
    {
        current_table(self.first, self.second, self.entries, self.state)
    }

    // Whether the store is undamaged.
    pub fn verify(&self) -> Result<bool, Error>
        ensures { result ≡ on self.now whole.verify }
    {
        verify(self.first, self.second, self.entries, self.state)
    }

    // Mends the store, whatever its memory holds.
    pub fn repair(&mut self) -> Result<(), Error>
        ensures outcome { (result, world_of self.new) ≡ kept self.old.state (on self.old mended.repair) }
        ensures same_buffers { SameBuffers self.old self.new }
    {
        let s = self.state;
        self.state = repair(self.first, self.second, self.entries, s)?;
        Ok(())
    }

    // The states that the calls above answer, which read the buffers together.
    fn allowed(&self, allowed: bool) -> Result<State, Error>
        ensures { result ≡ on self.now calls.allow_resize allowed }
    {
        allow_resize(self.first, self.second, self.entries, self.state, allowed)
    }

    fn one_safe_more(&self) -> Result<State, Error>
        ensures { result ≡ on self.now iterators.begin_safe }
    {
        begin_safe(self.first, self.second, self.entries, self.state)
    }

    fn one_safe_fewer(&self) -> Result<State, Error>
        ensures { result ≡ on self.now iterators.end_safe }
    {
        end_safe(self.first, self.second, self.entries, self.state)
    }
}

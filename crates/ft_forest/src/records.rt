// The records of the transactions, and how they are linked.
ghost use Rattle.std.specs.Prelude.{◌≡◌, ◌<◌, ◌+◌, ◌-◌, ◌^◌, ℕ, [], true, Some, None, IfOk, IfSome, OnOk, OnErr, length};
ghost use Rattle.std.specs.Option.{ForSome};
ghost use Rattle.ft_history.specs.Logs.{put};
ghost use Rattle.ft_forest.specs.Records.{no_links, links_of, put_at, with_gap_closed, with_child, without_child, without_youngest, forgotten_links, ended_links, begun_links};

use crate::record::{LiveRecord, Record};
use crate::state::State;
use ft_base::Memory;
use ft_paged::{PagedList, PagedTable};
use std::alloc::Global;

/// All transactions since the base in order, what is kept in addition for the live ones by their
/// places, and the youngest live top-level one.
#[derive(Drop)]
pub struct Records {
    pub youngest: Option<usize>,
    pub list: PagedList,
    pub live: PagedTable<LiveRecord>,
}

impl Records {
    /// Returns records of no transaction. Takes no memory.
    pub fn new(alloc: Global) -> Records
        ensures links { links_of result ≡ no_links }
        ensures list { result.list.items ≡ [] }
    {
        Records {
            youngest: None,
            list: PagedList::new(alloc),
            live: PagedTable::new(alloc),
        }
    }

    /// Adds a live transaction after all others, as the youngest child of its parent. If there is
    /// not enough memory, nothing has changed.
    pub fn begin(&mut self, parent: Option<usize>, depth: u64) -> Result<(), Memory>
        requires few { length self.old.list.items < 2 ^ 62 }
        requires parent { ForSome parent (λ p. p < length self.old.list.items) }
        requires kept { ForSome parent (λ p. (links_of self.old).kept p ≡ true) }
        requires children { (p : ℕ) → (links_of self.old).children p < 2 ^ 63 }
        requires youngest { ForSome
            ((links_of self.old).youngest parent) (λ y. (links_of self.old).kept y ≡ true) }
        ensures ok { OnOk result (links_of self.new
            ≡ begun_links (links_of self.old) parent depth) }
        ensures same_list { OnErr result (self.new.list.items ≡ self.old.list.items) }
        ensures same_youngest { OnErr result (self.new.youngest ≡ self.old.youngest) }
        ensures same_live { OnErr result (self.new.live ≡ self.old.live) }
    {
        let place = self.list.len();
        let older = self.youngest_of(parent);
        self.list.reserve()?;
        self.live
            .insert(place as u64, LiveRecord::begun(depth, older))?;
        self.list.push_reserved(Record::begun(parent).0);
        self.add_child(parent, place);
        if let Some(sibling) = older {
            self.set_younger(sibling, Some(place));
        }
        Ok(())
    }

    /// Ends the live transaction at a place.
    pub fn end(&mut self, place: usize, state: State)
        requires there { place < length self.old.list.items }
        requires kept { (links_of self.old).kept place ≡ true }
        requires parent { ForSome
            ((links_of self.old).parent place) (λ p. (links_of self.old).kept p ≡ true) }
        requires older { ForSome ((links_of self.old).older place) (λ p. (links_of self.old).kept p
            ≡ true) }
        requires younger { ForSome
            ((links_of self.old).younger place) (λ p. (links_of self.old).kept p ≡ true) }
        ensures { links_of self.new ≡ ended_links (links_of self.old) place state }
    {
        let LiveRecord { older, younger, .. } = self.live.get(place as u64).unwrap();
        let parent = self.set_state(place, state);
        self.take_child(parent, older, younger);
        self.close_gap(older, younger);
        self.forget(place);
    }

    /// Links the siblings on both sides of a gap to each other.
    fn close_gap(&mut self, older: Option<usize>, younger: Option<usize>)
        requires older { ForSome older (λ p. (links_of self.old).kept p ≡ true) }
        requires younger { ForSome younger (λ p. (links_of self.old).kept p ≡ true) }
        ensures { links_of self.new ≡ with_gap_closed (links_of self.old) older younger }
    {
        if let Some(sibling) = younger {
            self.set_older(sibling, older);
        }
        if let Some(sibling) = older {
            self.set_younger(sibling, younger);
        }
    }

    /// Returns the place of a transaction's parent, if it has one.
    pub fn parent_of(&self, place: usize) -> Option<usize>
        requires { place < length self.now.list.items }
        ensures { result ≡ (links_of self.now).parent place }
    {
        Record(self.list.get(place)).parent()
    }

    /// Returns the state of a transaction.
    pub fn state_of(&self, place: usize) -> State
        requires { place < length self.now.list.items }
        ensures { Some result ≡ (links_of self.now).state place }
    {
        Record(self.list.get(place)).state()
    }

    /// Returns whether a transaction is live.
    pub fn is_live(&self, place: usize) -> bool
        ensures { result ≡ (links_of self.now).kept place }
    {
        self.live.get(place as u64).is_some()
    }

    /// Returns the depth of a live transaction, 0 if it is not live.
    pub fn depth_of(&self, place: usize) -> u64
        ensures { result ≡ (links_of self.now).depth place }
    {
        match self.live.get(place as u64) {
            Some(record) => record.depth,
            None => 0,
        }
    }

    /// Returns the number of live children of a transaction, 0 if it is not live.
    pub fn children_of(&self, place: usize) -> u64
        ensures { result ≡ (links_of self.now).children place }
    {
        match self.live.get(place as u64) {
            Some(record) => record.children,
            None => 0,
        }
    }

    /// Returns the youngest live child of a transaction. Without a parent, it returns the youngest
    /// live top-level transaction.
    pub fn youngest_of(&self, parent: Option<usize>) -> Option<usize>
        ensures { result ≡ (links_of self.now).youngest parent }
    {
        match parent {
            Some(place) => self.live.get(place as u64)?.youngest,
            None => self.youngest,
        }
    }

    /// Returns the next older live sibling of a live transaction.
    pub fn older_of(&self, place: usize) -> Option<usize>
        ensures { result ≡ (links_of self.now).older place }
    {
        self.live.get(place as u64)?.older
    }

    /// Counts one more live child, and makes it the youngest.
    fn add_child(&mut self, parent: Option<usize>, child: usize)
        requires kept { ForSome parent (λ p. (links_of self.old).kept p ≡ true) }
        requires few { (p : ℕ) → (links_of self.old).children p < 2 ^ 63 }
        ensures { links_of self.new ≡ with_child (links_of self.old) parent child }
    {
        match parent {
            Some(place) => {
                let mut record = self.live.get(place as u64).unwrap();
                record.children += 1;
                record.youngest = Some(child);
                self.live.set(place as u64, record);
            }
            None => self.youngest = Some(child),
        }
    }

    /// Counts one live child less, which had these siblings.
    fn take_child(&mut self, parent: Option<usize>, older: Option<usize>, younger: Option<usize>)
        requires { ForSome parent (λ p. (links_of self.old).kept p ≡ true) }
        ensures { links_of self.new ≡ without_child (links_of self.old) parent older younger }
    {
        match younger {
            Some(_) => self.take_older_child(parent),
            None => self.take_youngest(parent, older),
        }
    }

    /// Counts one live child less, which was not the youngest.
    fn take_older_child(&mut self, parent: Option<usize>)
        requires { ForSome parent (λ p. (links_of self.old).kept p ≡ true) }
        ensures { links_of self.new
            ≡ (let s = links_of self.old in
            record s { children = put_at s.children parent (λ n. n - 1) }) }
    {
        if let Some(place) = parent {
            let mut record = self.live.get(place as u64).unwrap();
            record.children = record.children.saturating_sub(1);
            self.live.set(place as u64, record);
        }
    }

    /// Counts one live child less, which was the youngest and had this next older sibling.
    fn take_youngest(&mut self, parent: Option<usize>, older: Option<usize>)
        requires { ForSome parent (λ p. (links_of self.old).kept p ≡ true) }
        ensures { links_of self.new ≡ without_youngest (links_of self.old) parent older }
    {
        match parent {
            Some(place) => {
                let mut record = self.live.get(place as u64).unwrap();
                record.children = record.children.saturating_sub(1);
                record.youngest = older;
                self.live.set(place as u64, record);
            }
            None => self.youngest = older,
        }
    }

    /// Sets the state of a transaction, and returns its parent's place.
    fn set_state(&mut self, place: usize, state: State) -> Option<usize>
        requires { place < length self.old.list.items }
        ensures parent { result ≡ (links_of self.old).parent place }
        ensures state { links_of self.new
            ≡ (let s = links_of self.old in record s { state = put s.state place (Some state) }) }
    {
        let record = Record(self.list.get(place));
        self.list.set(place, record.with_state(state).0);
        record.parent()
    }

    /// Sets the next older sibling of a live transaction.
    fn set_older(&mut self, place: usize, older: Option<usize>)
        requires { (links_of self.old).kept place ≡ true }
        ensures { links_of self.new
            ≡ (let s = links_of self.old in record s { older = put s.older place older }) }
    {
        let mut record = self.live.get(place as u64).unwrap();
        record.older = older;
        self.live.set(place as u64, record);
    }

    /// Sets the next younger sibling of a live transaction.
    fn set_younger(&mut self, place: usize, younger: Option<usize>)
        requires { (links_of self.old).kept place ≡ true }
        ensures { links_of self.new
            ≡ (let s = links_of self.old in record s { younger = put s.younger place younger }) }
    {
        let mut record = self.live.get(place as u64).unwrap();
        record.younger = younger;
        self.live.set(place as u64, record);
    }

    /// Removes what is kept only for a live transaction.
    fn forget(&mut self, place: usize)
        ensures { links_of self.new ≡ forgotten_links (links_of self.old) place }
    {
        self.live.remove(place as u64);
    }
}

// The physical memory protection.
ghost use Rattle.std.specs.Prelude.{◌≡◌, ◌<◌, ◌≤◌, ◌*◌, ◌%◌, ◌^◌, IsTrue};
ghost use Rattle.fe_base.specs.ByteRanges.{every_byte, some_byte, is_between};
ghost use Rattle.fe_base.specs.MemoryMap.{user_start, user_end, is_within};
ghost use Rattle.rv_csr.specs.Pmp as spec;
ghost use Rattle.rv_csr.specs.Pmp.{no_entry, pmp_allows, IsEntry};
ghost use Rattle.rv_csr.specs.OpenArea as open_area;
ghost use Rattle.rv_csr.specs.OpenArea.{is_open};

use crate::privilege::Access;
use crate::table::{bits, is_set};
use fe_base::memory_map::{USER_END, USER_START};
use std::marker::Model;

/// A range of addresses with its rights.
#[derive(Clone, Copy)]
pub struct PmpEntry {
    /// Loads are allowed.
    pub read: bool,
    /// Stores are allowed.
    pub write: bool,
    /// Instructions may be fetched.
    pub execute: bool,
    /// The entry matches from the end of the one before it up to its own, else nothing.
    pub tor: bool,
    /// The address at which it ends, a multiple of 4 below 2^56.
    pub end: u64,
}

// A range of some bytes meets one from `first` up to `end`.
#[inline(always)]
#[tactic(auto, using(fe_base::proofs::RangeLemmas::by_ends))]
fn meets(first: u64, end: u64, at: u64, width: u64) -> bool
    requires some { 0 < width }
    requires end { end < 2 ^ 64 }
    ensures { result ≡ some_byte (is_between first end) at width }
{
    match at.checked_add(width) {
        Some(until) => first < end && at < end && first < until,
        None => first < end && (at < end || first < at.wrapping_add(width)),
    }
}

// A range of some bytes stands whole from `first` up to `end`.
#[inline(always)]
#[tactic(auto, using(fe_base::proofs::RangeLemmas::by_ends))]
fn covers(first: u64, end: u64, at: u64, width: u64) -> bool
    requires some { 0 < width }
    requires end { end < 2 ^ 64 }
    ensures { result ≡ every_byte (is_between first end) at width }
{
    first <= at && at <= end && width <= end - at
}

impl PmpEntry {
    /// An entry that matches nothing.
    pub fn off() -> PmpEntry
        ensures value { result ≡ no_entry }
        ensures range { IsEntry result }
    {
        PmpEntry {
            read: false,
            write: false,
            execute: false,
            tor: false,
            end: 0,
        }
    }

    /// The entry's byte of pmpcfg0.
    pub fn configuration(self) -> u64
        ensures value { result ≡ spec.configuration self }
        ensures range { result < 16 }
    {
        u64::from(self.read)
            + u64::from(self.write) * 2
            + u64::from(self.execute) * 4
            + u64::from(self.tor) * 8
    }

    /// The entry with another configuration.
    pub fn configured(self, byte: u64) -> PmpEntry
        requires { IsEntry self }
        ensures value { result ≡ spec.configured self byte }
        ensures range { IsEntry result }
    {
        let read = is_set(byte, 0);
        PmpEntry {
            read,
            write: is_set(byte, 1) && read,
            execute: is_set(byte, 2),
            tor: bits(byte, 3, 2) == 1,
            end: self.end,
        }
    }

    /// The entry with what its address register keeps of a value: bits 55:2 of the address at which it ends.
    pub fn ending(self, value: u64) -> PmpEntry
        requires { IsEntry self }
        ensures value { result ≡ record self { end = 4 * (value % 2 ^ 54) } }
        ensures range { IsEntry result }
    {
        PmpEntry {
            end: value % (1 << 54) * 4,
            ..self
        }
    }

    /// The entry has the right that an access needs.
    #[inline(always)]
    pub fn has_right(self, access: Access) -> bool
        ensures { result ≡ spec.has_right self access }
    {
        match access {
            Access::Read => self.read,
            Access::Write => self.write,
            Access::Execute => self.execute,
        }
    }

    // What the entry decides of an access, where it matches any byte of it.
    #[tactic(auto, using(crate::proofs::PmpLemmas::decisions), unfolding(crate::specs::Pmp::decision))]
    fn decision(self, first: u64, access: Access, at: u64, width: u64) -> Option<bool>
        requires { self.end < 2 ^ 56 }
        ensures { result ≡ spec.decision self first access at width }
    {
        if !self.tor || width == 0 {
            None
        } else if covers(first, self.end, at, width) {
            Some(self.has_right(access))
        } else if meets(first, self.end, at, width) {
            Some(false)
        } else {
            None
        }
    }
}

// A few bytes stand whole in the user area.
#[inline(always)]
#[tactic(auto, using(crate::proofs::PmpLemmas::open_lemmas))]
fn stands_in_user_area(at: u64, width: u64) -> bool
    requires { width ≤ 8 }
    ensures { result ≡ is_within user_start user_end at width }
{
    // An address below the area wraps around to a difference beyond every offset in it.
    at.wrapping_sub(USER_START) <= USER_END - USER_START - width
}

// Two entries let user mode make every access of a kind that stands whole in the user area.
fn opens_user_area(entry0: PmpEntry, entry1: PmpEntry, access: Access) -> bool
    ensures { result ≡ open_area.opens_user_area entry0 entry1 access }
{
    !entry0.tor
        && entry1.tor
        && entry1.has_right(access)
        && entry0.end <= USER_START
        && USER_END <= entry1.end
}

/// Two entries, seen as these. Whether they open the user area is found when they are set, so that most accesses of
/// user mode cost one comparison.
#[derive(Drop)]
pub struct Pmp {
    entry0: PmpEntry,
    entry1: PmpEntry,
    opens_loads: bool,
    opens_stores: bool,
    opens_fetches: bool,
}

impl Model for Pmp {
    ghost use Rattle.std.specs.Prelude.{◌≡◌};
    ghost use Rattle.rv_csr.specs.declared.privilege.Access.TheVariants as access;
    ghost use Rattle.rv_csr.specs.Pmp.{PmpState, IsEntry};
    ghost use Rattle.rv_csr.specs.OpenArea.{opens_user_area};

    ghost Value = { PmpState };

    ghost view = { λ p. record { entry0 = p.entry0; entry1 = p.entry1 } };

    ghost invariant = { λ p. IsEntry p.entry0 × IsEntry p.entry1
        × (p.opens_loads ≡ opens_user_area p.entry0 p.entry1 access.Read)
        × (p.opens_stores ≡ opens_user_area p.entry0 p.entry1 access.Write)
        × (p.opens_fetches ≡ opens_user_area p.entry0 p.entry1 access.Execute) };
}

impl Pmp {
    /// The two entries, as registers can hold them.
    pub fn new(entry0: PmpEntry, entry1: PmpEntry) -> Pmp
        requires first { IsEntry entry0 }
        requires second { IsEntry entry1 }
        ensures { result ≡ record { entry0 = entry0; entry1 = entry1 } }
    {
        Pmp {
            entry0,
            entry1,
            opens_loads: opens_user_area(entry0, entry1, Access::Read),
            opens_stores: opens_user_area(entry0, entry1, Access::Write),
            opens_fetches: opens_user_area(entry0, entry1, Access::Execute),
        }
    }

    /// The first entry.
    pub fn entry0(&self) -> PmpEntry
        ensures value { result ≡ self.now.entry0 }
        ensures range { IsEntry result }
    {
        self.entry0
    }

    /// The second entry.
    pub fn entry1(&self) -> PmpEntry
        ensures value { result ≡ self.now.entry1 }
        ensures range { IsEntry result }
    {
        self.entry1
    }

    /// The access stands whole in the user area, and user mode may make every access of its kind that does.
    #[inline(always)]
    #[tactic(auto, using(crate::proofs::PmpLemmas::open_lemmas))]
    pub fn is_open(&self, access: Access, at: u64, width: u64) -> bool
        requires some { 0 < width }
        requires few { width ≤ 8 }
        ensures value { result ≡ is_open self.now.entry0 self.now.entry1 access at width }
        ensures allowed { IsTrue result → IsTrue (pmp_allows self.now access at width) }
    {
        stands_in_user_area(at, width) && self.opens_user_area(access)
    }

    #[inline(always)]
    fn opens_user_area(&self, access: Access) -> bool
        ensures value { result ≡ open_area.opens_user_area self.now.entry0 self.now.entry1 access }
        ensures range { IsEntry self.now.entry1 }
    {
        match access {
            Access::Read => self.opens_loads,
            Access::Write => self.opens_stores,
            Access::Execute => self.opens_fetches,
        }
    }

    /// User mode may make the access: what the first entry decides that matches any byte of it.
    #[cold]
    pub fn allows(&self, access: Access, at: u64, width: u64) -> bool
        ensures { result ≡ pmp_allows self.now access at width }
    {
        match self.entry0.decision(0, access, at, width) {
            Some(allowed) => allowed,
            None => self
                .entry1
                .decision(self.entry0.end, access, at, width)
                .unwrap_or(false),
        }
    }
}

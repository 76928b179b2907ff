//! The translations that a logical processor has cached.

ghost use Rattle.std.specs.Prelude.{◌≡◌, ℕ, ◌-◌, ◌≤◌, ◌/◌, ◌==◌, ◌&&◌, Bool, false, not, List, [], length, drop, filter, None, Some};
ghost use Rattle.flat_core.specs.Tree.{page_of_gpa};
ghost use Rattle.flat_core.specs.Translations as flat;

use arrayvec::ArrayVec;
use std::marker::Model;
use td_words::Access;

/// How many translations are cached at most.
const ROOM: usize = 16;

/// A cached translation: the TDR page of its TD, its GPA divided by 4096, the page that it gives, and
/// whether it allows stores.
#[derive(Clone, Copy)]
pub struct Cached {
    pub tdr: u16,
    pub gpa_page: u64,
    pub page: u16,
    pub may_write: bool,
}

impl Model for Cached {
    ghost use Rattle.flat_core.specs.Processor.{Translation};

    ghost Value = { Translation };

    ghost view = { λ c. record { tdr = c.tdr; gpa_page = c.gpa_page; page = c.page; may_write = c.may_write } };

    ghost inverse = { λ c. record { tdr = c.tdr; gpa_page = c.gpa_page; page = c.page; may_write = c.may_write } };
}

impl Default for Cached {
    fn default() -> Cached {
        Cached {
            tdr: 0,
            gpa_page: 0,
            page: 0,
            may_write: false,
        }
    }
}

impl Cached {
    fn is_of_page(&self, tdr: u16, gpa_page: u64) -> bool
        ensures { result ≡ flat.is_of_page tdr gpa_page self.now }
    {
        self.tdr == tdr && self.gpa_page == gpa_page
    }

    fn is_of_td(&self, tdr: u16) -> bool
        ensures { result ≡ (self.now.tdr == tdr) }
    {
        self.tdr == tdr
    }

    fn allows(&self, access: Access) -> bool
        ensures { result ≡ flat.allows_access access self.now }
    {
        match access {
            Access::Read => true,
            Access::Write => self.may_write,
        }
    }

    fn page(&self) -> u16
        ensures { result ≡ self.now.page }
    {
        self.page
    }
}

/// The translations that a logical processor has cached, at most 16, oldest first.
#[derive(Drop)]
pub struct Tlb {
    cached: ArrayVec<Cached, ROOM>,
}

impl Model for Tlb {
    ghost use Rattle.std.specs.Prelude.{List};
    ghost use Rattle.flat_core.specs.Processor.{Translation};

    ghost Value = { List Translation };

    ghost view = { λ t. t.cached.items };
}

impl Tlb {
    /// Nothing is cached.
    pub fn new() -> Tlb
        ensures { result ≡ [] }
    {
        Tlb {
            cached: ArrayVec::new(),
        }
    }

    /// All of them, oldest first.
    pub fn translations(&self) -> &[Cached]
        ensures { result.now ≡ self.now }
    {
        self.cached.as_slice()
    }

    /// The page that a cached translation gives an access to a TD's GPA, if one allows it.
    pub fn look_up(&self, tdr: u16, gpa: u64, access: Access) -> Option<u16>
        ensures { result ≡ flat.look_up self.now tdr (page_of_gpa gpa) access }
    {
        find(self.cached.as_slice(), tdr, gpa / 4096, access)
    }

    /// The translation becomes the newest. An older one of its page is taken off first, and a
    /// seventeenth drops the oldest.
    pub fn fill(&mut self, tdr: u16, gpa: u64, page: u16, may_write: bool)
        ensures { self.new ≡ flat.cache (record { tdr = tdr; gpa_page = page_of_gpa gpa; page = page; may_write = may_write }) self.old }
    {
        let gpa_page = gpa / 4096;
        take_off_page(&mut self.cached, tdr, gpa_page);
        make_room(&mut self.cached);
        self.cached.push(Cached {
            tdr,
            gpa_page,
            page,
            may_write,
        });
    }

    /// The translations of a TD are dropped.
    pub fn flush_td(&mut self, tdr: u16)
        ensures { self.new ≡ flat.drop_td tdr self.old }
    {
        take_off_td(&mut self.cached, tdr);
    }
}

fn find(cached: &[Cached], tdr: u16, gpa_page: u64, access: Access) -> Option<u16>
    ensures { result ≡ flat.look_up cached.now tdr gpa_page access }
{
    for i in 0..cached.len() {
        let one = &cached[i];
        if one.is_of_page(tdr, gpa_page) && one.allows(access) {
            return Some(one.page());
        }
    }
    None
}

fn take_off_page(cached: &mut ArrayVec<Cached, ROOM>, tdr: u16, gpa_page: u64)
    ensures { cached.new.items ≡ filter (λ c. not (flat.is_of_page tdr gpa_page c)) cached.old.items }
{
    cached.retain(|c| !c.is_of_page(tdr, gpa_page));
}

fn take_off_td(cached: &mut ArrayVec<Cached, ROOM>, tdr: u16)
    ensures { cached.new.items ≡ flat.drop_td tdr cached.old.items }
{
    cached.retain(|c| !c.is_of_td(tdr));
}

/// Drops the oldest where one more would be a seventeenth.
fn make_room(cached: &mut ArrayVec<Cached, ROOM>)
    ensures items { cached.new.items ≡ drop (length cached.old.items - 15) cached.old.items }
    ensures room { length cached.new.items ≤ 15 }
{
    if cached.is_full() {
        cached.remove(0);
    }
}

// Tags, secrets and headers of envelopes; windows and lists of prefixes.
use chain::Dir;
use courier::Header;
use courier_core::ContactId;
use rows::{PREFIX_WIDTH, REACHABLE_WIDTH, Reachable, Row};

pub const ROUTE_KEY: [u8; 32] = [0x5A; 32];

#[derive(Clone, Copy)]
pub enum Tag {
    Of(u8),
    Twin(u8, u8), // of the same prefix as the first, with another end
    Own(u32), // of an own row, by its message number, which is its index
}

impl Tag {
    pub fn bytes(self) -> [u8; 16] {
        match self {
            Tag::Of(b) => [b; 16],
            Tag::Twin(b, last) => twin(b, last),
            Tag::Own(msgno) => courier::route_tag(ROUTE_KEY, Dir::I, 0, msgno),
        }
    }
}

fn twin(b: u8, last: u8) -> [u8; 16] {
    let mut t = [b; 16];
    t[15] = last;
    t
}

#[derive(Clone, Copy)]
pub enum Secret {
    Own, // of each own row
    Carried, // of a carried row for which a tomb comes
}

impl Secret {
    pub fn bytes(self) -> [u8; 16] {
        match self {
            Secret::Own => [0x77; 16],
            Secret::Carried => [0x66; 16],
        }
    }
}

// The header of an envelope: its tag, copies and expiry.
#[derive(Clone, Copy)]
pub enum Head {
    Plain(u8, u8, u32), // for which no tomb comes
    Sealed(Tag, u8, u32), // whose commitment `Secret::Carried` opens
}

impl Head {
    pub fn header(self) -> Header {
        match self {
            Head::Plain(b, copies, expiry_min) => Header {
                tag: [b; 16],
                c: [0x34; 16],
                expiry_min,
                copies,
            },
            Head::Sealed(tag, copies, expiry_min) => Header {
                tag: tag.bytes(),
                c: courier::commitment(Secret::Carried.bytes()),
                expiry_min,
                copies,
            },
        }
    }
}

// ---- a window and a list

fn reachable(contact: u64, dir: Dir, generation: u8, idx: u32, tag: Tag) -> [u8; REACHABLE_WIDTH] {
    let row = Reachable {
        contact: ContactId(contact),
        dir: dir.label(),
        generation,
        idx,
        tag: tag.bytes(),
    };
    row.bytes()
}

// Five rows in key order: index, then generation, direction and contact rise. Two prefixes are there twice.
pub fn window() -> [[u8; REACHABLE_WIDTH]; 5] {
    [
        reachable(6, Dir::I, 0, 1, Tag::Twin(0x41, 1)),
        reachable(6, Dir::I, 0, 2, Tag::Twin(0x41, 2)),
        reachable(6, Dir::I, 1, 0, Tag::Twin(0x43, 1)),
        reachable(6, Dir::R, 0, 0, Tag::Twin(0x43, 2)),
        reachable(7, Dir::I, 0, 0, Tag::Of(0x42)),
    ]
}

// The most prefixes of a list.
pub const MOST_LISTED: usize = 5;

// The prefixes of the first five tags, and zeros behind them.
pub fn list_of(tags: &[Tag]) -> [[u8; PREFIX_WIDTH]; MOST_LISTED] {
    let mut list = [[0u8; PREFIX_WIDTH]; MOST_LISTED];
    for (place, tag) in list.iter_mut().zip(tags) {
        let bytes = tag.bytes();
        *place = octets::get_array(&bytes, 0);
    }
    list
}

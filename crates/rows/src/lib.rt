// The rows of the tables that a host lends, and the device and the exchange beside them. Rows have no padding, and every field is a number
// of full range or a run of bytes, so that any bytes are a row. So a kind, a direction, a verification and a flag are bytes here too, as the
// host's area has them: an enum would have no value for the others.
#![tactic(auto)]

ghost use Rattle.std.specs.Prelude.{◌≡◌, ◌+◌, refl};
ghost use Rattle.rows.specs.Rows.{carried_codec, own_codec, tombstone_codec, contact_codec, bad_tag_codec, offer_codec, reply_codec, action_codec, reachable_codec};
ghost use Rattle.rows.specs.Proper.{ProperCarried, ProperOwn, ProperTombstone, ProperContact, ProperBadTag, ProperOffer, ProperReply, ProperAction, ProperReachable};
ghost use Rattle.rows.specs.Laws.{carried_laws, own_laws, tombstone_laws, contact_laws, bad_tag_laws, offer_laws, reply_laws, action_laws, reachable_laws};
ghost use Rattle.rows.specs.Device.{fresh_device, closed_exchange, fresh_exchange};

use courier_core::ContactId;
use state::CourierConfig;
pub use table::typed::Row;

// A carried envelope. Its ciphertext is the first len bytes of its cell.
#[derive(Clone, Copy)]
pub struct Carried {
    pub slot: u64,
    pub depositor: ContactId,
    pub tag: [u8; 16],
    pub c: [u8; 16],
    pub expiry_min: u32,
    pub copies: u8,
    pub len: u16,
    pub cell: u16,
}

// An own envelope: the courier copies of a queued message. A renewed byte other than 0 is renewed.
#[derive(Clone, Copy)]
pub struct Own {
    pub contact: ContactId,
    pub msgno: u32,
    pub tag: [u8; 16],
    pub s: [u8; 16],
    pub expiry_min: u32,
    pub copies: u8,
    pub renewed: u8,
    pub len: u16,
    pub cell: u16,
}

#[derive(Clone, Copy)]
pub struct Tombstone {
    pub slot: u64,
    pub tag: [u8; 16],
    pub s: [u8; 16],
    pub expiry_min: u32,
}

// A verification byte other than 1 is not verified.
#[derive(Clone, Copy)]
pub struct Contact {
    pub id: ContactId,
    pub verification: u8,
}

#[derive(Clone, Copy)]
pub struct BadTag {
    pub peer: ContactId,
    pub tag: [u8; 16],
}

// Copies handed over and not yet answered, of an exchange.
#[derive(Clone, Copy)]
pub struct Offer {
    pub tag: [u8; 16],
    pub copies: u8,
}

// The kind is one of Reply's constants. An envelope's cell: own ones from 0, carried ones from MAX_CELLS.
#[derive(Clone, Copy)]
pub struct Reply {
    pub kind: u8,
    pub cell: u16,
    pub body: [u8; REPLY_BODY],
}

// The kind is one of Action's constants. The number is a slot or a contact; the message number is 0 if the row is held.
#[derive(Clone, Copy)]
pub struct Action {
    pub kind: u8,
    pub number: u64,
    pub msgno: u32,
}

// A message key of the window and its tag.
#[derive(Clone, Copy)]
pub struct Reachable {
    pub contact: ContactId,
    pub dir: u8,
    pub generation: u8,
    pub idx: u32,
    pub tag: [u8; 16],
}

// The setting, the clock, how many rows each table has, and the next slot. A call that only reads takes it by value; one that changes it is lent it.
#[derive(Clone, Copy, Default)]
pub struct Device {
    pub courier: CourierConfig,
    pub now_s: u64,
    pub contacts: usize,
    pub own: usize,
    pub carried: usize,
    pub tombstones: usize,
    pub bad_tags: usize,
    pub next_slot: u64,
}

// One session's exchange, and the peer that it was opened for; its listed prefixes and its offers lie in areas beside it.
#[derive(Clone, Copy, Default)]
pub struct Exchange {
    pub peer: Option<ContactId>,
    pub complete: bool,
    pub listed: usize,
    pub offered: usize,
}

impl Device {
    // No row, contact or bad tag; next slot and clock 0; the default setting.
    pub fn fresh() -> Device
        ensures { result ≡ fresh_device }
    {
        Device::default()
    }
}

impl Exchange {
    // Opened for none.
    pub fn closed() -> Exchange
        ensures { result ≡ closed_exchange }
    {
        Exchange::default()
    }

    // Opened for a peer.
    pub fn fresh(peer: ContactId) -> Exchange
        ensures { result ≡ fresh_exchange peer }
    {
        Exchange {
            peer: Some(peer),
            ..Exchange::closed()
        }
    }
}

// ---- how many bytes a row has

pub const CARRIED_WIDTH: usize = 57;

pub const OWN_WIDTH: usize = 54;

pub const TOMBSTONE_WIDTH: usize = 44;

pub const CONTACT_WIDTH: usize = 9;

pub const BAD_TAG_WIDTH: usize = 24;

pub const OFFER_WIDTH: usize = 17;

pub const REPLY_WIDTH: usize = 40;

pub const ACTION_WIDTH: usize = 13;

pub const REACHABLE_WIDTH: usize = 30;

// The bytes of a reply behind its kind and cell: an envelope's header, or a tag and what follows it.
pub const REPLY_BODY: usize = courier::ENVELOPE_HEADER;

// A prefix is the first bytes of a tag.
pub const PREFIX_WIDTH: usize = 8;

// ---- where the fields stand that are read in place, without their row
// (The other fields' offsets stand in `read` and `bytes` alone, beside the field's name, and a number that a row begins with is read at 0: a name there would
// say no more.)

impl Carried {
    pub const DEPOSITOR: usize = 8;

    pub const TAG: usize = 16;

    pub const EXPIRY: usize = 48;

    pub const LEN: usize = 53;

    pub const CELL: usize = 55;
}

impl Own {
    pub const MSGNO: usize = 8;

    pub const TAG: usize = 12;

    pub const CELL: usize = 52;
}

impl Tombstone {
    pub const TAG: usize = 8;

    pub const EXPIRY: usize = 40;
}

impl BadTag {
    pub const TAG: usize = 8;
}

impl Offer {
    pub const TAG: usize = 0;
}

impl Reply {
    // Where a custody's code stands in the body, and a tomb's secret: behind the tag. (An envelope's body is its header.)
    pub const BEHIND_TAG: usize = 16;
}

impl Reachable {
    pub const DIR: usize = 8;

    pub const TAG: usize = 14;
}

// ---- the kinds of replies and of actions: bytes, as the host's area has them

impl Reply {
    pub const FETCH: u8 = 0;

    pub const ENVELOPE: u8 = 1;

    pub const CUSTODY: u8 = 2;

    pub const TOMB: u8 = 3;
}

impl Action {
    pub const PUT: u8 = 0;

    pub const DELETE: u8 = 1;

    pub const PUT_QUEUED: u8 = 2;
}

// ---- the areas that calls are lent

// The rows of a table of fixed size, and the cells of an area that count.
pub const MAX_CONTACTS: usize = 256;

pub const MAX_OWN: usize = 256;

pub const MAX_CARRIED: usize = 256;

pub const MAX_CELLS: usize = 256;

// The carried rows of one verified depositor, at most; in a loaded file, those of any depositor, verified or not.
pub const MAX_PER_VERIFIED: usize = 32;

// The prefixes and the offers of an exchange, at most.
pub const MAX_INVENTORY: usize = 512;

pub const MAX_OFFERS: usize = 512;

// The replies that a reply area has room for: a fetch and a tomb for each prefix, and an offer of each row.
pub const LISTED_REPLIES: usize = 2 * MAX_INVENTORY + MAX_OFFERS;

// Rows that are held for queued messages and for others, at most.
pub const MAX_ROWS: usize = MAX_OWN + MAX_CARRIED;

// The actions that an action area has room for, beside one for each tombstone row: one for each of MAX_ROWS rows.
pub const LISTED_ACTIONS: usize = MAX_ROWS;

// The bytes of the areas that hold so many rows.
pub const CONTACT_AREA: usize = MAX_CONTACTS * CONTACT_WIDTH;

pub const OWN_AREA: usize = MAX_OWN * OWN_WIDTH;

pub const CARRIED_AREA: usize = MAX_CARRIED * CARRIED_WIDTH;

pub const PREFIX_AREA: usize = MAX_INVENTORY * PREFIX_WIDTH;

pub const OFFER_AREA: usize = MAX_OFFERS * OFFER_WIDTH;

pub const REPLY_AREA: usize = LISTED_REPLIES * REPLY_WIDTH;

// ---- each row type: its bytes, and the row of an area's bytes
// (The nine impls have one shape, and each its own fields: the check refuses an impl that a macro of the repository writes.)

impl Row<CARRIED_WIDTH> for Carried {
    ghost codec = { carried_codec };

    ghost Proper = { ProperCarried };

    fn read(area: &[u8], at: usize) -> Carried {
        let b = &area[at..at + CARRIED_WIDTH];
        Carried {
            slot: octets::get_u64(b, 0),
            depositor: ContactId(octets::get_u64(b, Carried::DEPOSITOR)),
            tag: octets::get_array(b, Carried::TAG),
            c: octets::get_array(b, 32),
            expiry_min: octets::get_u32(b, Carried::EXPIRY),
            copies: octets::get_u8(b, 52),
            len: octets::get_u16(b, Carried::LEN),
            cell: octets::get_u16(b, Carried::CELL),
        }
    }

    fn bytes(self) -> [u8; CARRIED_WIDTH] {
        let mut b = [0u8; CARRIED_WIDTH];
        octets::put_u64(&mut b, 0, self.slot);
        octets::put_u64(&mut b, Carried::DEPOSITOR, self.depositor.0);
        octets::put_array(&mut b, Carried::TAG, self.tag);
        octets::put_array(&mut b, 32, self.c);
        octets::put_u32(&mut b, Carried::EXPIRY, self.expiry_min);
        octets::put_u8(&mut b, 52, self.copies);
        octets::put_u16(&mut b, Carried::LEN, self.len);
        octets::put_u16(&mut b, Carried::CELL, self.cell);
        b
    }

    ghost wide = { refl };

    ghost laws = { carried_laws };
}

impl Row<OWN_WIDTH> for Own {
    ghost codec = { own_codec };

    ghost Proper = { ProperOwn };

    fn read(area: &[u8], at: usize) -> Own {
        let b = &area[at..at + OWN_WIDTH];
        Own {
            contact: ContactId(octets::get_u64(b, 0)),
            msgno: octets::get_u32(b, Own::MSGNO),
            tag: octets::get_array(b, Own::TAG),
            s: octets::get_array(b, 28),
            expiry_min: octets::get_u32(b, 44),
            copies: octets::get_u8(b, 48),
            renewed: octets::get_u8(b, 49),
            len: octets::get_u16(b, 50),
            cell: octets::get_u16(b, Own::CELL),
        }
    }

    fn bytes(self) -> [u8; OWN_WIDTH] {
        let mut b = [0u8; OWN_WIDTH];
        octets::put_u64(&mut b, 0, self.contact.0);
        octets::put_u32(&mut b, Own::MSGNO, self.msgno);
        octets::put_array(&mut b, Own::TAG, self.tag);
        octets::put_array(&mut b, 28, self.s);
        octets::put_u32(&mut b, 44, self.expiry_min);
        octets::put_u8(&mut b, 48, self.copies);
        octets::put_u8(&mut b, 49, self.renewed);
        octets::put_u16(&mut b, 50, self.len);
        octets::put_u16(&mut b, Own::CELL, self.cell);
        b
    }

    ghost wide = { refl };

    ghost laws = { own_laws };
}

impl Row<TOMBSTONE_WIDTH> for Tombstone {
    ghost codec = { tombstone_codec };

    ghost Proper = { ProperTombstone };

    fn read(area: &[u8], at: usize) -> Tombstone {
        let b = &area[at..at + TOMBSTONE_WIDTH];
        Tombstone {
            slot: octets::get_u64(b, 0),
            tag: octets::get_array(b, Tombstone::TAG),
            s: octets::get_array(b, 24),
            expiry_min: octets::get_u32(b, Tombstone::EXPIRY),
        }
    }

    fn bytes(self) -> [u8; TOMBSTONE_WIDTH] {
        let mut b = [0u8; TOMBSTONE_WIDTH];
        octets::put_u64(&mut b, 0, self.slot);
        octets::put_array(&mut b, Tombstone::TAG, self.tag);
        octets::put_array(&mut b, 24, self.s);
        octets::put_u32(&mut b, Tombstone::EXPIRY, self.expiry_min);
        b
    }

    ghost wide = { refl };

    ghost laws = { tombstone_laws };
}

impl Row<CONTACT_WIDTH> for Contact {
    ghost codec = { contact_codec };

    ghost Proper = { ProperContact };

    fn read(area: &[u8], at: usize) -> Contact {
        let b = &area[at..at + CONTACT_WIDTH];
        Contact {
            id: ContactId(octets::get_u64(b, 0)),
            verification: octets::get_u8(b, 8),
        }
    }

    fn bytes(self) -> [u8; CONTACT_WIDTH] {
        let mut b = [0u8; CONTACT_WIDTH];
        octets::put_u64(&mut b, 0, self.id.0);
        octets::put_u8(&mut b, 8, self.verification);
        b
    }

    ghost wide = { refl };

    ghost laws = { contact_laws };
}

impl Row<BAD_TAG_WIDTH> for BadTag {
    ghost codec = { bad_tag_codec };

    ghost Proper = { ProperBadTag };

    fn read(area: &[u8], at: usize) -> BadTag {
        let b = &area[at..at + BAD_TAG_WIDTH];
        BadTag {
            peer: ContactId(octets::get_u64(b, 0)),
            tag: octets::get_array(b, BadTag::TAG),
        }
    }

    fn bytes(self) -> [u8; BAD_TAG_WIDTH] {
        let mut b = [0u8; BAD_TAG_WIDTH];
        octets::put_u64(&mut b, 0, self.peer.0);
        octets::put_array(&mut b, BadTag::TAG, self.tag);
        b
    }

    ghost wide = { refl };

    ghost laws = { bad_tag_laws };
}

impl Row<OFFER_WIDTH> for Offer {
    ghost codec = { offer_codec };

    ghost Proper = { ProperOffer };

    fn read(area: &[u8], at: usize) -> Offer {
        let b = &area[at..at + OFFER_WIDTH];
        Offer {
            tag: octets::get_array(b, Offer::TAG),
            copies: octets::get_u8(b, 16),
        }
    }

    fn bytes(self) -> [u8; OFFER_WIDTH] {
        let mut b = [0u8; OFFER_WIDTH];
        octets::put_array(&mut b, Offer::TAG, self.tag);
        octets::put_u8(&mut b, 16, self.copies);
        b
    }

    ghost wide = { refl };

    ghost laws = { offer_laws };
}

impl Row<REPLY_WIDTH> for Reply {
    ghost codec = { reply_codec };

    ghost Proper = { ProperReply };

    fn read(area: &[u8], at: usize) -> Reply {
        let b = &area[at..at + REPLY_WIDTH];
        Reply {
            kind: octets::get_u8(b, 0),
            cell: octets::get_u16(b, 1),
            body: octets::get_array(b, 3),
        }
    }

    fn bytes(self) -> [u8; REPLY_WIDTH] {
        let mut b = [0u8; REPLY_WIDTH];
        octets::put_u8(&mut b, 0, self.kind);
        octets::put_u16(&mut b, 1, self.cell);
        octets::put_array(&mut b, 3, self.body);
        b
    }

    ghost wide = { refl };

    ghost laws = { reply_laws };
}

impl Row<ACTION_WIDTH> for Action {
    ghost codec = { action_codec };

    ghost Proper = { ProperAction };

    fn read(area: &[u8], at: usize) -> Action {
        let b = &area[at..at + ACTION_WIDTH];
        Action {
            kind: octets::get_u8(b, 0),
            number: octets::get_u64(b, 1),
            msgno: octets::get_u32(b, 9),
        }
    }

    fn bytes(self) -> [u8; ACTION_WIDTH] {
        let mut b = [0u8; ACTION_WIDTH];
        octets::put_u8(&mut b, 0, self.kind);
        octets::put_u64(&mut b, 1, self.number);
        octets::put_u32(&mut b, 9, self.msgno);
        b
    }

    ghost wide = { refl };

    ghost laws = { action_laws };
}

impl Row<REACHABLE_WIDTH> for Reachable {
    ghost codec = { reachable_codec };

    ghost Proper = { ProperReachable };

    fn read(area: &[u8], at: usize) -> Reachable {
        let b = &area[at..at + REACHABLE_WIDTH];
        Reachable {
            contact: ContactId(octets::get_u64(b, 0)),
            dir: octets::get_u8(b, Reachable::DIR),
            generation: octets::get_u8(b, 9),
            idx: octets::get_u32(b, 10),
            tag: octets::get_array(b, Reachable::TAG),
        }
    }

    fn bytes(self) -> [u8; REACHABLE_WIDTH] {
        let mut b = [0u8; REACHABLE_WIDTH];
        octets::put_u64(&mut b, 0, self.contact.0);
        octets::put_u8(&mut b, Reachable::DIR, self.dir);
        octets::put_u8(&mut b, 9, self.generation);
        octets::put_u32(&mut b, 10, self.idx);
        octets::put_array(&mut b, Reachable::TAG, self.tag);
        b
    }

    ghost wide = { refl };

    ghost laws = { reachable_laws };
}

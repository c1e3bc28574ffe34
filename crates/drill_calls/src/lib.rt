// The call of each record of a log.
#![tactic(auto)]

ghost use Rattle.std.specs.Prelude.{◌≡◌, ◌≤◌, length, drop, replicate, Some};
ghost use Rattle.octets.specs.Bytes.{part};
ghost use Rattle.courier.specs.Courier.{header_of};
ghost use Rattle.rows.specs.Limits.{prefix_area, offer_area};
ghost use Rattle.wire.specs.Log as log;
ghost use Rattle.fetch.specs.Fetch.{fetched_said};
ghost use Rattle.drill_calls.specs.Asking.{envelope_said, inventory_said, fetch_said, tomb_said, told_with, Asks, tables_in, answers_of};

use courier::Custody;
use courier_core::{ContactId, Refusal};
use drill_lines::Said;
use rows::{
    ACTION_WIDTH, CARRIED_AREA, CONTACT_AREA, Device, Exchange, LISTED_ACTIONS, OFFER_AREA,
    OWN_AREA, PREFIX_AREA, REPLY_AREA, TOMBSTONE_WIDTH,
};
use wire::{Body, Mark};

// The drill's device has 1,024 tombstone rows, and 16 cells for own envelopes and as many for carried ones.
pub const TOMBSTONE_ROWS: usize = 1_024;

pub const CELLS: usize = 16;

pub const TOMBSTONE_AREA: usize = TOMBSTONE_ROWS * TOMBSTONE_WIDTH;

pub const CELL_AREA: usize = CELLS * state::CELL;

pub const ACTION_ROWS: usize = LISTED_ACTIONS + TOMBSTONE_ROWS;

pub const ACTION_AREA: usize = ACTION_ROWS * ACTION_WIDTH;

// The areas that the drill lends with its calls: the tables, cells, the exchange's prefixes and offers, and those for answers. There is none
// for bad tags.
#[derive(Drop)]
pub struct Tables {
    pub contacts: [u8; CONTACT_AREA],
    pub own: [u8; OWN_AREA],
    pub carried: [u8; CARRIED_AREA],
    pub tombstones: [u8; TOMBSTONE_AREA],
    pub own_cells: [u8; CELL_AREA],
    pub cells: [u8; CELL_AREA],
    pub prefixes: [u8; PREFIX_AREA],
    pub offers: [u8; OFFER_AREA],
    pub replies: [u8; REPLY_AREA],
    pub actions: [u8; ACTION_AREA],
}

impl Tables {
    // Areas of zeros: a fresh device has no row of them. (No derived Default: of an array it ensures what holds of each element, and `zeros` says what
    // the whole is. Tried of another such function, `no_row` of host_answers: the proof did not close.)
    pub fn zeros() -> Tables
        ensures zeros { (result.own_cells ≡ replicate 33024 0) × (result.cells ≡ replicate 33024 0) }
        ensures sizes { (length result.prefixes ≡ prefix_area) × (length result.offers ≡ offer_area) }
    {
        Tables {
            contacts: [0u8; CONTACT_AREA],
            own: [0u8; OWN_AREA],
            carried: [0u8; CARRIED_AREA],
            tombstones: [0u8; TOMBSTONE_AREA],
            own_cells: [0u8; CELL_AREA],
            cells: [0u8; CELL_AREA],
            prefixes: [0u8; PREFIX_AREA],
            offers: [0u8; OFFER_AREA],
            replies: [0u8; REPLY_AREA],
            actions: [0u8; ACTION_AREA],
        }
    }
}

// ---- what a call that is not refused says, by its answer
// (No `From`: both types are of other crates, and an impl stands in the crate of one of them. `replies: 0` stands
// at each call that lists none: a function for it would be no shorter.)

// No action and no reply.
const NOTHING: Said = Said::Listed {
    actions: 0,
    replies: 0,
};

fn envelope_said(answer: envelope::Answer) -> Said
    ensures { result ≡ envelope_said answer }
{
    match answer {
        envelope::Answer::Done(replies, actions) => Said::Listed { actions, replies },
        envelope::Answer::Ours(_, _, _) => NOTHING,
    }
}

fn inventory_said(answer: inventory::Said) -> Said
    ensures { result ≡ inventory_said answer }
{
    match answer {
        inventory::Said::Done(replies, _) => Said::Listed {
            actions: 0,
            replies,
        },
        inventory::Said::Malformed => Said::Malformed,
    }
}

// (A match and no `map`: the contract is by `fetched_said`, a definition of crate fetch that takes the whole answer, a refusal too.)
fn fetch_said(answer: Result<Option<&[u8]>, Refusal>) -> Result<Said, Refusal>
    ensures { result ≡ told_with fetch_said (fetched_said answer.entry) }
{
    match answer {
        Ok(Some(_)) => Ok(Said::Listed {
            actions: 0,
            replies: 1,
        }),
        Ok(None) => Ok(NOTHING),
        Err(why) => Err(why),
    }
}

fn tomb_said(answer: answers::Said) -> Said
    ensures { result ≡ tomb_said answer }
{
    match answer {
        answers::Said::Done(actions) => Said::Listed {
            actions,
            replies: 0,
        },
        answers::Said::Malformed => Said::Malformed,
    }
}

// ---- records whose bodies have runs of bytes
// (The device, the exchange and the tables are three parameters here and not one struct: which of them a call may change is seen by how it takes them.)

// The tag of a body that has one.
fn tag_in(body: &[u8]) -> [u8; 16]
    requires { 24 ≤ length body.now }
    ensures { result ≡ part body.now 8 16 }
{
    octets::get_array(body, Body::TAG)
}

fn receive_envelope(
    device: &mut Device,
    exchange: Exchange,
    tables: &mut Tables,
    peer: ContactId,
    body: &[u8],
) -> Result<Said, Refusal>
    requires { 45 ≤ length body.now }
    ensures { Asks (Some (log.envelope peer (header_of (part body.now 8 37)) (drop 45 body.now))) result
        (tables_in device.old exchange tables.old) (tables_in device.new exchange tables.new) (answers_of tables.old) (answers_of tables.new) }
{
    let header = courier::decode(body, Body::ENVELOPE).unwrap();
    let answer = envelope::envelope(
        device,
        peer,
        header,
        &body[Body::CIPHERTEXT..],
        b"",
        &tables.contacts,
        &tables.own,
        &mut tables.carried,
        &tables.tombstones,
        &mut tables.cells,
        &mut tables.replies,
        &mut tables.actions,
    );
    answer.map(envelope_said)
}

fn receive_inventory(
    device: Device,
    exchange: &mut Exchange,
    tables: &mut Tables,
    peer: ContactId,
    body: &[u8],
) -> Result<Said, Refusal>
    requires { 8 ≤ length body.now }
    ensures { Asks (Some (log.inventory peer (drop 8 body.now))) result
        (tables_in device exchange.old tables.old) (tables_in device exchange.new tables.new) (answers_of tables.old) (answers_of tables.new) }
{
    let answer = inventory::receive_inventory(
        exchange,
        device,
        peer,
        &tables.contacts,
        &tables.own,
        &tables.carried,
        &tables.tombstones,
        b"",
        b"",
        &body[Body::PREFIXES..],
        &mut tables.prefixes,
        &mut tables.offers,
        &mut tables.replies,
    );
    answer.map(inventory_said)
}

fn fetch_tagged(
    device: Device,
    exchange: Exchange,
    tables: &mut Tables,
    peer: ContactId,
    tag: [u8; 16],
) -> Result<Said, Refusal>
    ensures { Asks (Some (log.fetch peer tag)) result
        (tables_in device exchange tables.old) (tables_in device exchange tables.new) (answers_of tables.old) (answers_of tables.new) }
{
    fetch_said(fetch::fetch(
        device,
        peer,
        tag,
        &tables.contacts,
        &tables.own,
        &tables.carried,
        &tables.own_cells,
        &tables.cells,
        &mut tables.replies,
    ))
}

fn receive_custody(
    device: &mut Device,
    exchange: &mut Exchange,
    tables: &mut Tables,
    peer: ContactId,
    tag: [u8; 16],
    code: Custody,
) -> Result<Said, Refusal>
    ensures { Asks (Some (log.custody peer tag code)) result
        (tables_in device.old exchange.old tables.old) (tables_in device.new exchange.new tables.new) (answers_of tables.old) (answers_of tables.new) }
{
    let answer = handover::handed_over(
        exchange,
        device,
        peer,
        tag,
        code,
        &tables.contacts,
        &mut tables.own,
        &mut tables.carried,
        &tables.tombstones,
        &tables.prefixes,
        &mut tables.offers,
        &mut tables.actions,
    );
    answer.map(|actions| Said::Listed {
        actions,
        replies: 0,
    })
}

fn receive_tomb(
    device: &mut Device,
    exchange: Exchange,
    tables: &mut Tables,
    peer: ContactId,
    tag: [u8; 16],
    s: [u8; 16],
) -> Result<Said, Refusal>
    ensures { Asks (Some (log.tomb peer tag s)) result
        (tables_in device.old exchange tables.old) (tables_in device.new exchange tables.new) (answers_of tables.old) (answers_of tables.new) }
{
    let answer = tombs::receive_tomb(
        device,
        peer,
        tag,
        s,
        &tables.contacts,
        &mut tables.own,
        &mut tables.carried,
        &mut tables.tombstones,
        &mut tables.actions,
    );
    answer.map(tomb_said)
}

// ---- the other records

fn open_session(
    device: Device,
    exchange: &mut Exchange,
    tables: &Tables,
    peer: ContactId,
) -> Result<Said, Refusal>
    ensures { Asks (Some (log.session peer)) result
        (tables_in device exchange.old tables.now) (tables_in device exchange.new tables.now) (answers_of tables.now) (answers_of tables.now) }
{
    let answer = contacts::fresh_exchange(
        exchange,
        device,
        peer,
        &tables.contacts,
        &tables.prefixes,
        &tables.offers,
    );
    answer.map(|()| NOTHING)
}

fn maintain(device: &mut Device, exchange: Exchange, tables: &mut Tables) -> Result<Said, Refusal>
    ensures { Asks (Some log.maintenance) result
        (tables_in device.old exchange tables.old) (tables_in device.new exchange tables.new) (answers_of tables.old) (answers_of tables.new) }
{
    let answer = maintenance::maintain_couriers(
        device,
        &mut tables.own,
        &mut tables.carried,
        &mut tables.tombstones,
        &mut tables.actions,
    );
    answer.map(|actions| Said::Listed {
        actions,
        replies: 0,
    })
}

// ---- the call of a record

pub fn ask(
    mark: Mark,
    body: &[u8],
    device: &mut Device,
    exchange: &mut Exchange,
    tables: &mut Tables,
) -> Result<Said, Refusal>
    ensures { Asks (log.body_of mark body.now) result
        (tables_in device.old exchange.old tables.old) (tables_in device.new exchange.new tables.new) (answers_of tables.old) (answers_of tables.new) }
{
    let Some(read) = wire::read_body(mark, body) else {
        return Err(Refusal::LogRecord);
    };
    match read {
        Body::Clock { seconds } => {
            contacts::clock(device, seconds);
            Ok(NOTHING)
        }
        Body::Contact { id, verification } => {
            contacts::contact(device, id, verification, &mut tables.contacts).map(|()| NOTHING)
        }
        Body::Session { peer } => open_session(*device, exchange, tables, peer),
        Body::Envelope { peer } => receive_envelope(device, *exchange, tables, peer, body),
        Body::Inventory { peer } => receive_inventory(*device, exchange, tables, peer, body),
        Body::Fetch { peer } => fetch_tagged(*device, *exchange, tables, peer, tag_in(body)),
        Body::Custody { peer, code } => {
            receive_custody(device, exchange, tables, peer, tag_in(body), code)
        }
        Body::Tomb { peer } => {
            let s = octets::get_array(body, Body::SECRET);
            receive_tomb(device, *exchange, tables, peer, tag_in(body), s)
        }
        Body::Maintenance => maintain(device, *exchange, tables),
        Body::Setting {
            enabled,
            copies,
            lifetime,
        } => contacts::setting(device, enabled, copies, lifetime).map(|()| NOTHING),
    }
}

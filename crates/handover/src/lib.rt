// Custody codes: an offer that is answered is cleared, and accepted copies are taken off their row (`handed_over`).
#![tactic(auto)]

ghost use Rattle.std.specs.Prelude.{◌≡◌, ◌-◌, ◌*◌, ◌/◌, ◌<◌, ◌≤◌, min, ◌||◌, length, nat_lt};
ghost use Rattle.table.specs.Lists.{position};
ghost use Rattle.table.specs.Rows.{held};
ghost use Rattle.table.specs.Tables.{rows_in};
ghost use Rattle.rows.specs.Rows.{own_width, carried_width, tombstone_width, offer_width, action_width, offer_codec};
ghost use Rattle.rows.specs.Limits.{max_offers, prefix_area, offer_area, action_area};
ghost use Rattle.model.specs.Calls.{custody_answer};
ghost use Rattle.model.specs.Exchange.{offer_of_tag};
ghost use Rattle.model.specs.Lent.{actions_lent};
ghost use Rattle.holdings.specs.Lends.{Lends};
ghost use Rattle.handover.specs.Handing.{TakenOffCarried, TakenOffOwn, HandedAs, Cleared, says, code_lent, code_leaves};

use courier::Custody;
use courier_core::{ContactId, Refusal};
use holdings::{carried_of_tag, known, own_of_tag, short_exchange};
use rows::{
    CARRIED_AREA, CARRIED_WIDTH, CONTACT_AREA, Carried, Device, Exchange, MAX_OFFERS, OFFER_WIDTH,
    OWN_AREA, OWN_WIDTH, Offer, Own, Row,
};
use table::Table;

// Where the offer of a tag stands.
fn offer_of_tag(offers: Table<OFFER_WIDTH>, tag: [u8; 16]) -> Option<usize>
    ensures { result ≡ position (offer_of_tag tag) (rows_in offer_codec offers.entry) }
{
    offers.find(Offer::TAG, &tag)
}

// ---- copies taken off a row, stopping at 0

// Takes n copies off the carried row at i, and lists its put; answers how many rows there are.
// (A table that changes is lent by `&mut`, and its count goes back to the device: two values, as the trait's functions have them.)
// (One function for own rows too would take a trait over `Row`, with a row of fewer copies and its action, and an `impl` for each: no plainer.)
#[tactic(auto, using(holdings::proofs::SearchLaws::row_within))]
fn take_off(carried: &mut [u8], count: usize, i: usize, n: u8, actions: &mut [u8]) -> usize
    requires { (i < held (length carried.old) carried_width count) × (action_width ≤ length actions.old) }
    ensures { TakenOffCarried n count i carried.old actions.old result carried.new actions.new }
{
    let row = Carried::read(carried, i * CARRIED_WIDTH);
    answers::put_courier(actions, 0, row.slot);
    let left = Carried {
        copies: row.copies.saturating_sub(n),
        ..row
    };
    Carried::replace(carried, count, i, left)
}

// The same, of an own row.
#[tactic(auto, using(holdings::proofs::SearchLaws::row_within))]
fn take_off_own(own: &mut [u8], count: usize, i: usize, n: u8, actions: &mut [u8]) -> usize
    requires { (i < held (length own.old) own_width count) × (action_width ≤ length actions.old) }
    ensures { TakenOffOwn n count i own.old actions.old result own.new actions.new }
{
    let row = Own::read(own, i * OWN_WIDTH);
    answers::put_queued(actions, 0, row.contact, row.msgno);
    let left = Own {
        copies: row.copies.saturating_sub(n),
        ..row
    };
    Own::replace(own, count, i, left)
}

// Takes n copies off the row with the tag, a carried row before an own one; answers how many actions are listed.
fn hand_over(
    device: &mut Device,
    tag: [u8; 16],
    n: u8,
    own: &mut [u8],
    carried: &mut [u8],
    actions: &mut [u8],
) -> usize
    requires { action_width ≤ length actions.old }
    ensures { HandedAs device.old tag n own.old carried.old actions.old device.new result own.new carried.new actions.new }
{
    let carried_rows = Table {
        area: carried,
        count: device.carried,
    };
    if let Some(i) = carried_of_tag(carried_rows, tag) {
        device.carried = take_off(carried, device.carried, i, n, actions);
        return 1;
    }
    let own_rows = Table {
        area: own,
        count: device.own,
    };
    if let Some(i) = own_of_tag(own_rows, tag) {
        device.own = take_off_own(own, device.own, i, n, actions);
        return 1;
    }
    0
}

// ---- the call

// Is the prefix area, the offer area or the action area too short?
fn too_short(prefixes: &[u8], offers: &[u8], actions: &[u8], tombstones: &[u8]) -> bool
    ensures { result ≡ ((nat_lt (length prefixes.now) prefix_area || nat_lt (length offers.now) offer_area) || nat_lt (length actions.now) (action_area (length tombstones.now / tombstone_width))) }
{
    short_exchange(prefixes.len(), offers.len())
        || answers::short_actions(actions.len(), tombstones.len())
}

// Clears the offer at i; answers how many copies were handed with it.
#[tactic(auto, using(holdings::proofs::SearchLaws::row_within))]
fn clear_offer(exchange: &mut Exchange, offers: &mut [u8], i: usize) -> u8
    requires { i < held (length offers.old) offer_width (min max_offers exchange.old.offered) }
    ensures { Cleared i exchange.old offers.old result exchange.new offers.new }
{
    let copies = Offer::read(offers, i * OFFER_WIDTH).copies;
    // (Cut again, as where the offer was looked for: this function is lent the exchange, whose count may be above MAX_OFFERS, and not the cut count.)
    exchange.offered = Offer::remove(offers, MAX_OFFERS.min(exchange.offered), i);
    copies
}

// A custody code clears the offer with its tag, whatever the code; only Accepted takes the handed copies off. Answers how many actions are listed.
// (A call is lent what the exported functions of crate goosetable are lent, each area and each value by itself.)
pub fn handed_over(
    exchange: &mut Exchange,
    device: &mut Device,
    peer: ContactId,
    tag: [u8; 16],
    code: Custody,
    contacts: &[u8; CONTACT_AREA],
    own: &mut [u8; OWN_AREA],
    carried: &mut [u8; CARRIED_AREA],
    tombstones: &[u8],
    prefixes: &[u8],
    offers: &mut [u8],
    actions: &mut [u8],
) -> Result<usize, Refusal>
    ensures { Lends says (custody_answer (length actions.old) peer tag code) result
        (code_lent device.old exchange.old contacts.now own.old carried.old tombstones.now prefixes.now offers.old)
        (code_lent device.new exchange.new contacts.now own.new carried.new tombstones.now prefixes.now offers.new)
        (actions_lent actions.old) (actions_lent actions.new)
        (code_leaves tag exchange.old) exchange.old exchange.new }
{
    if too_short(prefixes, offers, actions, tombstones) {
        return Err(Refusal::ShortArea);
    }
    let known_contacts = Table {
        area: contacts,
        count: device.contacts,
    };
    if !known(known_contacts, peer) {
        return Err(Refusal::UnknownContact);
    }
    if exchange.peer != Some(peer) {
        return Err(Refusal::WrongExchange);
    }
    let handed = Table {
        area: offers,
        count: MAX_OFFERS.min(exchange.offered),
    };
    let Some(i) = offer_of_tag(handed, tag) else {
        return Ok(0);
    };
    let copies = clear_offer(exchange, offers, i);
    if code != Custody::Accepted {
        return Ok(0);
    }
    Ok(hand_over(device, tag, copies, own, carried, actions))
}

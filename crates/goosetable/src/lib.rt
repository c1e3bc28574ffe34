// The calls as a host of another language links them: numbers, and areas by pointer and length. The device and an exchange lie in
// small areas of their own (crate boundary); a table of fixed size is a pointer alone. No two areas may overlap, but for ones that are only read.
// (C lends each area and each value by a parameter of its own: so envelope, fetch, own envelope, inventory, custody code, tomb and opened have
// eight parameters and more, one a line. include/check compares the areas' sizes with those of the C header.)
#![tactic(auto)]

ghost use Rattle.std.specs.Prelude.{◌≡◌, [], ◌∷◌, length};
ghost use Rattle.chain.specs.Chain.{dir_of, window_says, window_area};
ghost use Rattle.courier.specs.Courier.{from_code};
ghost use Rattle.courier.specs.Tags.{route_tag, delivered_secret, commitment_of};
ghost use Rattle.state.specs.Held.{held_decode, held_read};
ghost use Rattle.courier_core.specs.Core.{verification_from};
ghost use Rattle.wire.specs.Log.{enabled_of};
ghost use Rattle.boundary.specs.Boundary.{FreshArea, device_kept, device_read, exchange_kept, both_kept};
ghost use Rattle.model.specs.Calls.{answer_of, contact as contact_call, setting as setting_call, clock as clock_call, open_exchange, envelope as envelope_call, fetch as fetch_call, add_own, inventory_of_ours, inventory_received, custody_answer, stored_tombstone, tomb as tomb_call, opened as opened_call, failed as failed_call, maintenance as maintenance_call, row_blob, save as save_call, page as page_call};
ghost use Rattle.model.specs.Lent.{no_answers, replies_lent, actions_lent, answers_lent, bytes_lent, device_in, contacts_in, exchange_in};
ghost use Rattle.contacts.specs.Answers.{said_of};
ghost use Rattle.envelope.specs.Answers.{envelope_says, envelope_in};
ghost use Rattle.fetch.specs.Fetch.{fetch_says, fetch_in};
ghost use Rattle.own_envelope.specs.OwnEnvelope.{own_says, lent_own};
ghost use Rattle.inventory.specs.Inventory.{inventory_says, held_in as rows_lent, received_says, received_in};
ghost use Rattle.handover.specs.Handing.{says as code_says, code_lent};
ghost use Rattle.stored_tombstone.specs.StoredTombstone.{says_stored};
ghost use Rattle.tombstones.specs.Tombstones.{tombstones_lent};
ghost use Rattle.answers.specs.Says.{says as tomb_says};
ghost use Rattle.tombs.specs.Tombs.{tomb_lent};
ghost use Rattle.reports.specs.Reports.{opened_lent, failed_lent};
ghost use Rattle.maintenance.specs.Expiry.{maintained_of, lent_tables};
ghost use Rattle.saved.specs.Blobs.{blob_says, held_in};
ghost use Rattle.saved.specs.Saving.{save_says};
ghost use Rattle.screen.specs.Page.{page_says, held_in as page_lent};
ghost use Rattle.load.specs.Load.{load_step};
ghost use Rattle.load.specs.Laying.{says as load_says, load_lent};
ghost use Rattle.host_answers.specs.HostAnswers.{done_answer, acted_answer, wrote_answer, envelope_answer, fetched_answer, own_answers, inventory_answer, tomb_answer, blob_answer, row_of};
ghost use Rattle.goosetable.specs.Hosts.{Hosts, HostsCall, HostsOwn, alone, OnRead, Stays, Fills, contact_id, header_from};
ghost use Rattle.goosetable.specs.Version.{version};

use boundary::{DEVICE, EXCHANGE, device_of, exchange_of, fresh_device, put_device, put_exchange};
use chain::Dir;
use courier::{Custody, Header};
use courier_core::{ContactId, Refusal, Verification};
use host_answers::{
    Answer, Row, acted_answer, blob_answer, done_answer, envelope_answer, fetch_answer,
    inventory_answer, own_answer, own_row, refused, tomb_answer, wrote_answer,
};
use rows::{CARRIED_AREA, CONTACT_AREA, OWN_AREA, OWN_WIDTH};
use wire::enabled_of;

// (A call reads the device, works on it and puts it back. One function for that, with the call as a closure, was tried and gets no proof: its
// caller is told nothing of what the closure left in the areas that it borrowed beside the device.)

// 0.2.7 as a number: major * 10,000 + minor * 100 + patch.
const VERSION: u32 = 207;

// ---- what the host sets

// A post with no row, contact or bad tag, next slot and clock 0, and the default setting.
#[unsafe(no_mangle)]
pub extern "C" fn goosetable_fresh(device: &mut [u8; DEVICE])
    ensures { FreshArea device.new }
{
    fresh_device(device);
}

#[unsafe(no_mangle)]
pub extern "C" fn goosetable_clock(device: &mut [u8; DEVICE], seconds: u64) -> Answer
    ensures { HostsCall device_kept (λ o. done_answer (answer_of said_of o)) (clock_call seconds) result device.old device.new device_in device_in no_answers no_answers }
{
    let mut d = device_of(device);
    contacts::clock(&mut d, seconds);
    put_device(device, d);
    done_answer(Ok(()))
}

// Enabled other than 0 and 1 is refused with `LogRecord`.
#[unsafe(no_mangle)]
pub extern "C" fn goosetable_setting(
    device: &mut [u8; DEVICE],
    enabled: u8,
    copies: u8,
    lifetime: u16,
) -> Answer
    ensures { OnRead (enabled_of enabled) (λ on. HostsCall device_kept (λ o. done_answer (answer_of said_of o)) (setting_call on copies lifetime) result device.old device.new device_in device_in no_answers no_answers) (Stays 13 result (device.old ∷ []) (device.new ∷ [])) }
{
    let Some(on) = enabled_of(enabled) else {
        return refused(Refusal::LogRecord);
    };
    let mut d = device_of(device);
    let said = contacts::setting(&mut d, on, copies, lifetime);
    put_device(device, d);
    done_answer(said)
}

// A verification above 2 is refused with `LogRecord`.
#[unsafe(no_mangle)]
pub extern "C" fn goosetable_contact(
    device: &mut [u8; DEVICE],
    id: u64,
    verification: u8,
    contacts: &mut [u8; CONTACT_AREA],
) -> Answer
    ensures { OnRead (verification_from verification) (λ v. HostsCall device_kept (λ o. done_answer (answer_of said_of o)) (contact_call (contact_id id) v) result device.old device.new
        (λ d a. device_in d (contacts_in contacts.old a)) (λ d a. device_in d (contacts_in contacts.new a)) no_answers no_answers)
        (Stays 13 result (device.old ∷ contacts.old ∷ []) (device.new ∷ contacts.new ∷ [])) }
{
    let Some(v) = Verification::from_byte(verification) else {
        return refused(Refusal::LogRecord);
    };
    let mut d = device_of(device);
    let said = contacts::contact(&mut d, ContactId(id), v, contacts);
    put_device(device, d);
    done_answer(said)
}

// The exchange stays as it is where the call is refused.
#[unsafe(no_mangle)]
pub extern "C" fn goosetable_fresh_exchange(
    device: &[u8; DEVICE],
    exchange: &mut [u8; EXCHANGE],
    peer: u64,
    contacts: &[u8; CONTACT_AREA],
    prefixes: &[u8],
    offers: &[u8],
) -> Answer
    ensures { HostsCall exchange_kept (λ o. done_answer (answer_of said_of o)) (open_exchange (contact_id peer)) result (device.now, exchange.old) (device.now, exchange.new)
        (λ p a. device_in p.0 (contacts_in contacts.now (exchange_in p.1 prefixes.now offers.now a)))
        (λ p a. device_in p.0 (contacts_in contacts.now (exchange_in p.1 prefixes.now offers.now a))) no_answers no_answers }
{
    let d = device_of(device);
    let mut e = exchange_of(exchange);
    let said = contacts::fresh_exchange(&mut e, d, ContactId(peer), contacts, prefixes, offers);
    put_exchange(exchange, e);
    done_answer(said)
}

// ---- envelopes

// The contact, the generation and the index are told of an envelope that is ours.
#[unsafe(no_mangle)]
pub extern "C" fn goosetable_envelope(
    device: &mut [u8; DEVICE],
    peer: u64,
    tag: &[u8; 16],
    c: &[u8; 16],
    expiry: u32,
    copies: u8,
    ct: &[u8],
    window: &[u8],
    contacts: &[u8; CONTACT_AREA],
    own: &[u8; OWN_AREA],
    carried: &mut [u8; CARRIED_AREA],
    tombstones: &[u8],
    carried_cells: &mut [u8],
    replies: &mut [u8],
    actions: &mut [u8],
) -> Answer
    ensures { HostsCall device_kept (λ o. envelope_answer (answer_of envelope_says o))
        (envelope_call (length replies.old) (length actions.old) window.now (contact_id peer) (header_from tag.now c.now expiry copies) ct.now) result device.old device.new
        (λ d. envelope_in d contacts.now own.now carried.old tombstones.now carried_cells.old)
        (λ d. envelope_in d contacts.now own.now carried.new tombstones.now carried_cells.new)
        (answers_lent replies.old actions.old) (answers_lent replies.new actions.new) }
{
    let head = Header {
        tag: *tag,
        c: *c,
        expiry_min: expiry,
        copies,
    };
    let mut d = device_of(device);
    let said = envelope::envelope(
        &mut d,
        ContactId(peer),
        head,
        ct,
        window,
        contacts,
        own,
        carried,
        tombstones,
        carried_cells,
        replies,
        actions,
    );
    put_device(device, d);
    envelope_answer(said)
}

// The length is the ciphertext's; the reply names its cell.
#[unsafe(no_mangle)]
pub extern "C" fn goosetable_fetch<'c>(
    device: &[u8; DEVICE],
    peer: u64,
    tag: &[u8; 16],
    contacts: &[u8; CONTACT_AREA],
    own: &[u8; OWN_AREA],
    carried: &[u8; CARRIED_AREA],
    own_cells: &'c [u8],
    carried_cells: &'c [u8],
    replies: &mut [u8],
) -> Answer
    ensures { HostsCall device_read (λ o. fetched_answer (length o.replies) (answer_of (fetch_says own_cells.now carried_cells.now) o)) (fetch_call (length replies.old) (contact_id peer) tag.now) result device.now device.now
        (λ d. fetch_in d contacts.now own.now carried.now own_cells.now carried_cells.now)
        (λ d. fetch_in d contacts.now own.now carried.now own_cells.now carried_cells.now)
        (replies_lent replies.old) (replies_lent replies.new) }
{
    let fetched = fetch::fetch(
        device_of(device),
        ContactId(peer),
        *tag,
        contacts,
        own,
        carried,
        own_cells,
        carried_cells,
        replies,
    );
    fetch_answer(fetched, 1)
}

// A direction other than `I` and `R` is refused with `WindowRows`. The row is written where there is one.
#[unsafe(no_mangle)]
pub extern "C" fn goosetable_own_envelope(
    device: &mut [u8; DEVICE],
    contact: u64,
    msgno: u32,
    route_key: &[u8; 32],
    dir: u8,
    generation: u8,
    idx: u32,
    s: &[u8; 16],
    ct: &[u8],
    contacts: &[u8; CONTACT_AREA],
    own: &mut [u8; OWN_AREA],
    own_cells: &mut [u8],
    row: &mut [u8; OWN_WIDTH],
) -> Answer
    ensures { OnRead (dir_of dir) (λ way. HostsOwn (λ o. own_answers row.old (answer_of own_says o))
        (add_own (contact_id contact) msgno route_key.now way generation idx s.now ct.now) (result, row.new) device.old device.new
        (λ d. lent_own d contacts.now own.old own_cells.old)
        (λ d. lent_own d contacts.now own.new own_cells.new))
        (Stays 12 result (device.old ∷ own.old ∷ own_cells.old ∷ row.old ∷ []) (device.new ∷ own.new ∷ own_cells.new ∷ row.new ∷ [])) }
{
    let Some(way) = Dir::from_label(dir) else {
        return refused(Refusal::WindowRows); // neither `I` nor `R`
    };
    let mut d = device_of(device);
    let made = own_envelope::own_envelope(
        &mut d,
        ContactId(contact),
        msgno,
        *route_key,
        way,
        generation,
        idx,
        *s,
        ct,
        contacts,
        own,
        own_cells,
    );
    put_device(device, d);
    *row = own_row(made, *row);
    own_answer(made)
}

// ---- exchanges

// The prefixes of what is held here; the length counts them.
#[unsafe(no_mangle)]
pub extern "C" fn goosetable_inventory_of_ours(
    device: &[u8; DEVICE],
    peer: u64,
    contacts: &[u8; CONTACT_AREA],
    own: &[u8; OWN_AREA],
    carried: &[u8; CARRIED_AREA],
    prefixes: &mut [u8],
) -> Answer
    ensures { HostsCall device_read (λ o. wrote_answer (answer_of inventory_says o)) (inventory_of_ours (length prefixes.old) (contact_id peer)) result device.now device.now
        (λ d. rows_lent d contacts.now own.now carried.now) (λ d. rows_lent d contacts.now own.now carried.now)
        (bytes_lent prefixes.old) (bytes_lent prefixes.new) }
{
    let d = device_of(device);
    wrote_answer(inventory::inventory(d, ContactId(peer), contacts, own, carried, prefixes))
}

// A list of prefixes from a peer; of the empty one, which ends them, the length counts the rows for which the tombstones were searched.
#[unsafe(no_mangle)]
pub extern "C" fn goosetable_inventory(
    device: &[u8; DEVICE],
    exchange: &mut [u8; EXCHANGE],
    peer: u64,
    contacts: &[u8; CONTACT_AREA],
    own: &[u8; OWN_AREA],
    carried: &[u8; CARRIED_AREA],
    tombstones: &[u8],
    bad_tags: &[u8],
    window: &[u8],
    listed: &[u8],
    prefixes: &mut [u8],
    offers: &mut [u8],
    replies: &mut [u8],
) -> Answer
    ensures { HostsCall exchange_kept (λ o. inventory_answer (answer_of received_says o)) (inventory_received (length replies.old) window.now (contact_id peer) listed.now) result (device.now, exchange.old) (device.now, exchange.new)
        (λ p. received_in p.0 contacts.now own.now carried.now tombstones.now bad_tags.now p.1 prefixes.old offers.old)
        (λ p. received_in p.0 contacts.now own.now carried.now tombstones.now bad_tags.now p.1 prefixes.new offers.new)
        (replies_lent replies.old) (replies_lent replies.new) }
{
    let d = device_of(device);
    let mut e = exchange_of(exchange);
    let said = inventory::receive_inventory(
        &mut e,
        d,
        ContactId(peer),
        contacts,
        own,
        carried,
        tombstones,
        bad_tags,
        window,
        listed,
        prefixes,
        offers,
        replies,
    );
    put_exchange(exchange, e);
    inventory_answer(said)
}

// The custody code that a peer answers an offer with; one above 4 is refused with `LogRecord`.
#[unsafe(no_mangle)]
pub extern "C" fn goosetable_custody_code(
    device: &mut [u8; DEVICE],
    exchange: &mut [u8; EXCHANGE],
    peer: u64,
    tag: &[u8; 16],
    code: u8,
    contacts: &[u8; CONTACT_AREA],
    own: &mut [u8; OWN_AREA],
    carried: &mut [u8; CARRIED_AREA],
    tombstones: &[u8],
    prefixes: &[u8],
    offers: &mut [u8],
    actions: &mut [u8],
) -> Answer
    ensures { OnRead (from_code code) (λ k. HostsCall both_kept (λ o. acted_answer (answer_of code_says o)) (custody_answer (length actions.old) (contact_id peer) tag.now k) result
        (device.old, exchange.old) (device.new, exchange.new)
        (λ p. code_lent p.0 p.1 contacts.now own.old carried.old tombstones.now prefixes.now offers.old)
        (λ p. code_lent p.0 p.1 contacts.now own.new carried.new tombstones.now prefixes.now offers.new)
        (actions_lent actions.old) (actions_lent actions.new))
        (Stays 13 result (device.old ∷ exchange.old ∷ own.old ∷ carried.old ∷ offers.old ∷ actions.old ∷ [])
        (device.new ∷ exchange.new ∷ own.new ∷ carried.new ∷ offers.new ∷ actions.new ∷ [])) }
{
    let Some(k) = Custody::from_code(code) else {
        return refused(Refusal::LogRecord);
    };
    let mut d = device_of(device);
    let mut e = exchange_of(exchange);
    let said = handover::handed_over(
        &mut e,
        &mut d,
        ContactId(peer),
        *tag,
        k,
        contacts,
        own,
        carried,
        tombstones,
        prefixes,
        offers,
        actions,
    );
    put_device(device, d);
    put_exchange(exchange, e);
    acted_answer(said)
}

// ---- tombstones

#[unsafe(no_mangle)]
pub extern "C" fn goosetable_stored_tombstone(
    device: &mut [u8; DEVICE],
    tag: &[u8; 16],
    s: &[u8; 16],
    expiry: u32,
    tombstones: &mut [u8],
    actions: &mut [u8],
) -> Answer
    ensures { HostsCall device_kept (λ o. acted_answer (answer_of says_stored o)) (stored_tombstone (length actions.old) tag.now s.now expiry) result device.old device.new
        (λ d. tombstones_lent d tombstones.old) (λ d. tombstones_lent d tombstones.new) (actions_lent actions.old) (actions_lent actions.new) }
{
    let mut d = device_of(device);
    let said = stored_tombstone::stored_tombstone(&mut d, *tag, *s, expiry, tombstones, actions);
    put_device(device, d);
    acted_answer(said)
}

#[unsafe(no_mangle)]
pub extern "C" fn goosetable_tomb(
    device: &mut [u8; DEVICE],
    peer: u64,
    tag: &[u8; 16],
    s: &[u8; 16],
    contacts: &[u8; CONTACT_AREA],
    own: &mut [u8; OWN_AREA],
    carried: &mut [u8; CARRIED_AREA],
    tombstones: &mut [u8],
    actions: &mut [u8],
) -> Answer
    ensures { HostsCall device_kept (λ o. tomb_answer (length o.replies) (answer_of tomb_says o)) (tomb_call (length actions.old) (contact_id peer) tag.now s.now) result device.old device.new
        (λ d. tomb_lent d contacts.now own.old carried.old tombstones.old)
        (λ d. tomb_lent d contacts.now own.new carried.new tombstones.new)
        (actions_lent actions.old) (actions_lent actions.new) }
{
    let mut d = device_of(device);
    let said = tombs::receive_tomb(
        &mut d,
        ContactId(peer),
        *tag,
        *s,
        contacts,
        own,
        carried,
        tombstones,
        actions,
    );
    put_device(device, d);
    tomb_answer(said, 0)
}

// The host opened an envelope that was ours.
#[unsafe(no_mangle)]
pub extern "C" fn goosetable_opened(
    device: &mut [u8; DEVICE],
    peer: u64,
    tag: &[u8; 16],
    s: &[u8; 16],
    expiry: u32,
    contacts: &[u8; CONTACT_AREA],
    tombstones: &mut [u8],
    replies: &mut [u8],
    actions: &mut [u8],
) -> Answer
    ensures { HostsCall device_kept (λ o. tomb_answer (length o.replies) (answer_of tomb_says o)) (opened_call (length replies.old) (length actions.old) (contact_id peer) tag.now s.now expiry) result device.old device.new
        (λ d. opened_lent d contacts.now tombstones.old) (λ d. opened_lent d contacts.now tombstones.new)
        (answers_lent replies.old actions.old) (answers_lent replies.new actions.new) }
{
    let mut d = device_of(device);
    let said = reports::report_opened(
        &mut d,
        ContactId(peer),
        *tag,
        *s,
        expiry,
        contacts,
        tombstones,
        replies,
        actions,
    );
    put_device(device, d);
    tomb_answer(said, 1)
}

// The host could not open an envelope that was ours.
#[unsafe(no_mangle)]
pub extern "C" fn goosetable_failed(
    device: &mut [u8; DEVICE],
    peer: u64,
    tag: &[u8; 16],
    contacts: &[u8; CONTACT_AREA],
    bad_tags: &mut [u8],
) -> Answer
    ensures { HostsCall device_kept (λ o. tomb_answer (length o.replies) (answer_of tomb_says o)) (failed_call (contact_id peer) tag.now) result device.old device.new
        (λ d. failed_lent d contacts.now bad_tags.old) (λ d. failed_lent d contacts.now bad_tags.new) no_answers no_answers }
{
    let mut d = device_of(device);
    let said = reports::report_failed(&mut d, ContactId(peer), *tag, contacts, bad_tags);
    put_device(device, d);
    tomb_answer(said, 0)
}

// ---- maintenance

#[unsafe(no_mangle)]
pub extern "C" fn goosetable_maintenance(
    device: &mut [u8; DEVICE],
    own: &mut [u8; OWN_AREA],
    carried: &mut [u8; CARRIED_AREA],
    tombstones: &mut [u8],
    actions: &mut [u8],
) -> Answer
    ensures { HostsCall device_kept (λ o. acted_answer (answer_of maintained_of o)) (maintenance_call (length actions.old)) result device.old device.new
        (λ d. lent_tables d own.old carried.old tombstones.old) (λ d. lent_tables d own.new carried.new tombstones.new)
        (actions_lent actions.old) (actions_lent actions.new) }
{
    let mut d = device_of(device);
    let said = maintenance::maintain_couriers(&mut d, own, carried, tombstones, actions);
    put_device(device, d);
    acted_answer(said)
}

// ---- held rows as blobs, and the saved file

// The blob of the row in a slot; the length counts bytes.
#[unsafe(no_mangle)]
pub extern "C" fn goosetable_row_blob(
    device: &[u8; DEVICE],
    slot: u64,
    carried: &[u8; CARRIED_AREA],
    tombstones: &[u8],
    carried_cells: &[u8],
    blob: &mut [u8],
) -> Answer
    ensures { HostsCall device_read (λ o. blob_answer (answer_of blob_says o)) (row_blob (length blob.old) slot) result device.now device.now
        (λ d. held_in d carried.now tombstones.now carried_cells.now) (λ d. held_in d carried.now tombstones.now carried_cells.now)
        (bytes_lent blob.old) (bytes_lent blob.new) }
{
    let d = device_of(device);
    blob_answer(saved::row_blob(d, slot, carried, tombstones, carried_cells, blob))
}

// The saved file; the length counts bytes.
#[unsafe(no_mangle)]
pub extern "C" fn goosetable_save(
    device: &[u8; DEVICE],
    carried: &[u8; CARRIED_AREA],
    tombstones: &[u8],
    carried_cells: &[u8],
    file: &mut [u8],
) -> Answer
    ensures { HostsCall device_read (λ o. wrote_answer (answer_of save_says o)) (save_call (length file.old)) result device.now device.now
        (λ d. held_in d carried.now tombstones.now carried_cells.now) (λ d. held_in d carried.now tombstones.now carried_cells.now)
        (bytes_lent file.old) (bytes_lent file.new) }
{
    let d = device_of(device);
    wrote_answer(saved::save(d, carried, tombstones, carried_cells, file))
}

// A page of the post's screen, counted from 0; the length counts bytes.
#[unsafe(no_mangle)]
pub extern "C" fn goosetable_page(
    device: &[u8; DEVICE],
    page: u64,
    carried: &[u8; CARRIED_AREA],
    tombstones: &[u8],
    area: &mut [u8],
) -> Answer
    ensures { HostsCall device_read (λ o. wrote_answer (answer_of page_says o)) (page_call (length area.old) page) result device.now device.now
        (λ d. page_lent d carried.now tombstones.now) (λ d. page_lent d carried.now tombstones.now)
        (bytes_lent area.old) (bytes_lent area.new) }
{
    let d = device_of(device);
    wrote_answer(screen::page(d, page, carried, tombstones, area))
}

// Replaces the held rows and the next slot by those of a saved file.
#[unsafe(no_mangle)]
pub extern "C" fn goosetable_load(
    device: &mut [u8; DEVICE],
    contacts: &[u8; CONTACT_AREA],
    carried: &mut [u8; CARRIED_AREA],
    tombstones: &mut [u8],
    carried_cells: &mut [u8],
    file: &[u8],
) -> Answer
    ensures { Hosts device_kept alone (λ o. done_answer (answer_of load_says o)) (λ s. load_step s file.now) result device.old device.new
        (λ d. load_lent d contacts.now carried.old tombstones.old carried_cells.old)
        (λ d. load_lent d contacts.now carried.new tombstones.new carried_cells.new) no_answers no_answers }
{
    let mut d = device_of(device);
    let said = load::load(&mut d, contacts, carried, tombstones, carried_cells, file);
    put_device(device, d);
    done_answer(said)
}

// ---- functions of their inputs alone

// The rows of a window; the length counts them.
#[unsafe(no_mangle)]
pub extern "C" fn goosetable_window(skipped: &[u8], chains: &[u8], answer: &mut [u8]) -> Answer
    ensures { (result ≡ wrote_answer (window_says answer.old skipped.now chains.now)) × (answer.new ≡ window_area answer.old skipped.now chains.now) }
{
    wrote_answer(chain::window(skipped, chains, answer))
}

// The tag of a message key, under the contact's route key. A direction other than `I` and `R` is refused with `WindowRows`.
#[unsafe(no_mangle)]
pub extern "C" fn goosetable_route_tag(
    route_key: &[u8; 32],
    dir: u8,
    generation: u8,
    idx: u32,
    tag: &mut [u8; 16],
) -> Answer
    ensures { OnRead (dir_of dir) (λ way. Fills (route_tag route_key.now way generation idx) result tag.new)
        (Stays 12 result (tag.old ∷ []) (tag.new ∷ [])) }
{
    let Some(way) = Dir::from_label(dir) else {
        return refused(Refusal::WindowRows);
    };
    *tag = courier::route_tag(*route_key, way, generation, idx);
    done_answer(Ok(()))
}

// The secret of a message key (not the route key), which proves that its envelope was delivered.
#[unsafe(no_mangle)]
pub extern "C" fn goosetable_delivered(message_key: &[u8; 32], s: &mut [u8; 16])
    ensures { s.new ≡ delivered_secret message_key.now }
{
    *s = courier::delivered(*message_key);
}

// The commitment that a secret opens. (Of the form of the function above; what is computed is another, and C has a name for each.)
#[unsafe(no_mangle)]
pub extern "C" fn goosetable_commitment(s: &[u8; 16], c: &mut [u8; 16])
    ensures { c.new ≡ commitment_of s.now }
{
    *c = courier::commitment(*s);
}

// A held row as it is in a blob.
#[unsafe(no_mangle)]
pub extern "C" fn goosetable_row_read(blob: &[u8]) -> Row
    ensures { result ≡ row_of (held_read (held_decode blob.now)) }
{
    state::decode(blob).into()
}

// ---- the version

// Its name has the first two numbers: what was compiled for others does not link.
#[unsafe(no_mangle)]
pub extern "C" fn goosetable_version_0_2() -> u32
    ensures { result ≡ version }
{
    VERSION
}

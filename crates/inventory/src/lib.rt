// Inventories: the prefixes of what is held here, and what a peer's list of prefixes is answered with.
#![tactic(auto)]

ghost use Rattle.std.specs.Prelude.{◌≡◌, ◌+◌, ◌*◌, ◌/◌, ◌%◌, ◌<◌, ◌≤◌, min, not, ◌||◌, ◌++◌, map, length, take, nat_lt};
ghost use mathlib.Core.List.{flat_map};
ghost use Rattle.courier_core.specs.Core.{first_of};
ghost use Rattle.table.specs.Rows.{ragged};
ghost use Rattle.table.specs.Codec.{table_of};
ghost use Rattle.table.specs.Tables.{rows_in};
ghost use Rattle.rows.specs.Rows.{reply_width, own_codec, carried_codec, tombstone_codec, reply_bytes};
ghost use Rattle.rows.specs.Limits.{max_inventory, max_own, max_carried, prefix_area, offer_area, reply_area};
ghost use Rattle.model.specs.State.{State};
ghost use Rattle.model.specs.Calls.{short_replies, inventory_of_ours, inventory_received};
ghost use Rattle.model.specs.Contacts.{known};
ghost use Rattle.model.specs.Window.{prefix_rows, prefix_codec, wrong_window};
ghost use Rattle.model.specs.Exchange.{tomb_for, receive_inventory_tests};
ghost use Rattle.model.specs.Lent.{Does, replies_lent, bytes_lent};
ghost use Rattle.holdings.specs.Lends.{Lends};
ghost use Rattle.offers.specs.Appended.{Appended};
ghost use Rattle.offers.specs.Areas.{rows_of, how_many, own_of, carried_of};
ghost use Rattle.offers.specs.Entries.{entries};
ghost use Rattle.inventory.specs.Inventory.{prefix_for, prefix_of, inventory_says, held_in, fetch_of, fetches, Answers, Lengthened, received_says, received_in, inventory_leaves, Reads};

use courier_core::{ContactId, Refusal};
use holdings::window;
use offers::{Held, Row, Rows};
use rows::{
    BAD_TAG_WIDTH, CARRIED_AREA, CONTACT_AREA, Device, Exchange, MAX_INVENTORY, MAX_ROWS, OWN_AREA,
    PREFIX_AREA, PREFIX_WIDTH, REACHABLE_WIDTH, REPLY_WIDTH, Reachable, Row as _, TOMBSTONE_WIDTH,
    Tombstone,
};
use table::Table;

// ---- the rows held here

// The own rows and the carried rows: of each as many as the device counts, or as its area has room for.
fn held_here<'a>(
    device: Device,
    own: &'a [u8; OWN_AREA],
    carried: &'a [u8; CARRIED_AREA],
) -> Held<'a>
    ensures own { own_of result ≡ table_of own_codec device.own own.now }
    ensures carried { carried_of result ≡ table_of carried_codec device.carried carried.now }
    ensures few { how_many result ≤ max_own + max_carried }
{
    Held {
        own: Rows::fit(Table {
            area: own,
            count: device.own,
        }),
        carried: Rows::fit(Table {
            area: carried,
            count: device.carried,
        }),
    }
}

// ---- inventory of ours
// (Prefixes and replies are written into lent areas, with the number of those that are there beside, in place of a Vec: the library has no heap.)

// Writes the prefix of a row that may go to the peer, the first 8 bytes of its tag, behind the k that are there; answers how many there are then.
fn push_prefix(prefixes: &mut [u8], k: usize, row: Option<Row>) -> usize
    requires { k * 8 + 8 ≤ length prefixes.old }
    ensures { Appended 8 prefixes.old k (prefix_for row) result prefixes.new × (result ≤ k + 1) }
{
    match row {
        Some(row) => {
            octets::copy_in(prefixes, k * PREFIX_WIDTH, &row.tag[..PREFIX_WIDTH]);
            k + 1
        }
        None => k,
    }
}

// Writes the prefixes of the held rows; answers how many there are.
fn list_prefixes(held: &Held, peer: ContactId, prefixes: &mut [u8]) -> usize
    requires { how_many held.now * 8 ≤ length prefixes.old }
    ensures { Appended 8 prefixes.old 0 (flat_map prefix_of (entries peer (own_of held.now) (carried_of held.now))) result prefixes.new }
{
    let mut k = 0;
    for i in 0..held.len() {
        k = push_prefix(prefixes, k, held.row_at(i, peer));
    }
    k
}

// The prefixes of all rows that may go to the peer, tombstoned ones too and whatever their copies: how many there are.
pub fn inventory(
    device: Device,
    peer: ContactId,
    contacts: &[u8; CONTACT_AREA],
    own: &[u8; OWN_AREA],
    carried: &[u8; CARRIED_AREA],
    prefixes: &mut [u8],
) -> Result<usize, Refusal>
    ensures { Does inventory_says (inventory_of_ours (length prefixes.old) peer) result
        (held_in device contacts.now own.now carried.now)
        (held_in device contacts.now own.now carried.now)
        (bytes_lent prefixes.old) (bytes_lent prefixes.new) }
{
    if prefixes.len() < PREFIX_AREA {
        return Err(Refusal::ShortArea);
    }
    let contacts = Table {
        area: contacts,
        count: device.contacts,
    };
    if !holdings::known(contacts, peer) {
        return Err(Refusal::UnknownContact);
    }
    let held = held_here(device, own, carried);
    Ok(list_prefixes(&held, peer, prefixes))
}

// ---- what a listed prefix is answered with

// Where a listed prefix is looked up for the peer. (A lifetime for each area: with one for all three the call's signature, which lends each area by itself,
// would have to name it at each.)
#[derive(Clone, Copy)]
struct Lookup<'w, 'b, 't> {
    peer: ContactId,
    window: &'w [u8],
    bad_tags: Table<'b, BAD_TAG_WIDTH>,
    tombstones: Table<'t, TOMBSTONE_WIDTH>,
}

impl Lookup<'_, '_, '_> {
    // The tag of the first window row with the prefix, if it is neither bad for the peer nor a tombstone's.
    #[tactic(auto, using(crate::proofs::ListedLaws::window_row))]
    fn tag_to_fetch(&self, prefix: [u8; 8]) -> Option<[u8; 16]>
        ensures { fetch_of result ≡ fetches self.now prefix }
    {
        let i = window::lookup_prefix(self.window, prefix)?;
        let tag = octets::get_array(self.window, i * REACHABLE_WIDTH + Reachable::TAG);
        if holdings::is_bad(self.bad_tags, self.peer, tag) {
            return None;
        }
        if holdings::tombstoned(self.tombstones, tag) {
            return None;
        }
        Some(tag)
    }
}

// Writes the fetch of a tag, if there is one, behind the k replies that are there; answers how many there are then.
fn push_fetch(replies: &mut [u8], k: usize, tag: Option<[u8; 16]>) -> usize
    requires { k * reply_width + reply_width ≤ length replies.old }
    ensures { Appended reply_width replies.old k (map reply_bytes (fetch_of tag)) result replies.new × (result ≤ k + 1) }
{
    match tag {
        Some(tag) => {
            answers::put_fetch(replies, k * REPLY_WIDTH, tag);
            k + 1
        }
        None => k,
    }
}

// Writes the fetches for the listed prefixes, in their order; answers how many replies there are.
fn push_fetches(replies: &mut [u8], listed: Rows<PREFIX_WIDTH>, lookup: &Lookup) -> usize
    requires { listed.n * reply_width ≤ length replies.old }
    ensures { Appended reply_width replies.old 0 (map reply_bytes (flat_map (fetches lookup.now) (rows_of prefix_codec listed.entry))) result replies.new
        × (result ≤ listed.entry.n) }
{
    let mut k = 0;
    for i in 0..listed.n {
        let prefix = octets::get_array(listed.area, i * PREFIX_WIDTH);
        k = push_fetch(replies, k, lookup.tag_to_fetch(prefix));
    }
    k
}

// Writes the tomb of the first tombstone with the prefix, if there is one, behind the k replies that are there; answers how many there are then.
// (The first is the one of lowest slot in an area that calls left: there slots ascend.)
fn push_tomb(
    replies: &mut [u8],
    k: usize,
    tombstones: Table<TOMBSTONE_WIDTH>,
    prefix: [u8; 8],
) -> usize
    requires { k * reply_width + reply_width ≤ length replies.old }
    ensures { Appended reply_width replies.old k (map reply_bytes (tomb_for (rows_in tombstone_codec tombstones.entry) prefix)) result replies.new × (result ≤ k + 1) }
{
    match tombstones.find(Tombstone::TAG, &prefix) {
        Some(j) => {
            let row = Tombstone::read(tombstones.area, j * TOMBSTONE_WIDTH);
            answers::put_tomb(replies, k * REPLY_WIDTH, row.tag, row.s);
            k + 1
        }
        None => k,
    }
}

// Writes the tombs for the listed prefixes, in their order, behind the n replies that are there; answers how many replies there are then.
// (A walk of its own, since all fetches come before the tombs; one function for both would take a closure that writes into an area which the walk lends it: no plainer.)
fn push_tombs(
    replies: &mut [u8],
    n: usize,
    listed: Rows<PREFIX_WIDTH>,
    tombstones: Table<TOMBSTONE_WIDTH>,
) -> usize
    requires { (n + listed.n) * reply_width ≤ length replies.old }
    ensures { Appended reply_width replies.old n (map reply_bytes (flat_map (tomb_for (rows_in tombstone_codec tombstones.entry)) (rows_of prefix_codec listed.entry))) result replies.new
        × (result ≤ n + listed.entry.n) }
{
    let mut k = n;
    for i in 0..listed.n {
        let prefix = octets::get_array(listed.area, i * PREFIX_WIDTH);
        k = push_tomb(replies, k, tombstones, prefix);
    }
    k
}

// ---- inventory received

// What the call says: malformed, or how many replies there are and for how many rows the tombstones were searched.
// (No Option: its None would not say malformed, which is an answer and no refusal. Crate answers has a `Said` of one number: over what `Done` holds, the two would be
// one type, and say less at each call.)
#[derive(Clone, Copy)]
pub enum Said {
    Malformed,
    Done(usize, usize),
}

// Answers the terminator: fetches and tombs for the listed prefixes, then offers, and for how many rows the tombstones were searched. The listed prefixes are taken out.
fn answer_inventory(
    exchange: &mut Exchange,
    held: &Held,
    lookup: &Lookup,
    listed: Rows<PREFIX_WIDTH>,
    offers: &mut [u8],
    replies: &mut [u8],
) -> Said
    requires few { (how_many held.now ≤ max_own + max_carried) × (listed.n ≤ max_inventory) }
    requires in_bounds { (offer_area ≤ length offers.old) × (reply_area ≤ length replies.old) }
    ensures { Answers exchange.old lookup.now (own_of held.now) (carried_of held.now) (rows_of prefix_codec listed.entry) replies.old offers.old exchange.new result replies.new offers.new }
{
    let f = push_fetches(replies, listed, lookup);
    let t = push_tombs(replies, f, listed, lookup.tombstones);
    let mut flags = [false; MAX_ROWS];
    let tombstones = Rows::fit(lookup.tombstones);
    let searched = offers::list_offers(held, lookup.peer, listed, tombstones, &mut flags);
    let sent = offers::write_offers(held, &flags, replies, t, offers);
    exchange.complete = true;
    exchange.listed = 0;
    exchange.offered = sent.offers;
    Said::Done(sent.replies, searched)
}

// Lists more prefixes behind the l that are there.
fn list_more(exchange: &mut Exchange, prefixes: &mut [u8], l: usize, listed: &[u8])
    requires { (length listed.now % 8 ≡ 0) × (l * 8 + length listed.now ≤ length prefixes.old) }
    ensures { Lengthened exchange.old (table_of prefix_codec l prefixes.old ++ prefix_rows listed.now) prefixes.old exchange.new prefixes.new }
{
    octets::copy_in(prefixes, l * PREFIX_WIDTH, listed);
    exchange.listed = l + listed.len() / PREFIX_WIDTH;
}

// More than `MAX_INVENTORY` in all are malformed, and so is any inventory after the terminator.
fn too_many(complete: bool, l: usize, more: usize) -> bool
    requires { (l ≤ max_inventory) × (more < 2305843009213693952) }
    ensures { result ≡ (complete || nat_lt max_inventory (l + more)) }
{
    complete || MAX_INVENTORY < l + more
}

// ---- its refusals

// How long the areas are that the call needs room in.
#[derive(Clone, Copy)]
struct Room {
    prefixes: usize,
    offers: usize,
    replies: usize,
}

fn too_short(room: Room) -> bool
    ensures { result ≡ (short_replies room.replies || (nat_lt room.prefixes prefix_area || nat_lt room.offers offer_area)) }
{
    answers::short_replies(room.replies) || holdings::short_exchange(room.prefixes, room.offers)
}

fn wrong_rows(window: &[u8], listed: &[u8]) -> bool
    ensures { result ≡ (wrong_window window.now || ragged 8 listed.now) }
{
    window::wrong_window(window) || 0 < listed.len() % PREFIX_WIDTH
}

// The first test that refuses the call.
fn tested(
    device: Device,
    to: Option<ContactId>,
    peer: ContactId,
    contacts: &[u8],
    window: &[u8],
    listed: &[u8],
    room: Room,
) -> Result<(), Refusal>
    ensures { (s : State) → Reads s device contacts.now to room.prefixes room.offers
        → result ≡ first_of (receive_inventory_tests s room.replies window.now peer listed.now) Err (Ok tt) }
{
    if too_short(room) {
        return Err(Refusal::ShortArea);
    }
    if wrong_rows(window, listed) {
        return Err(Refusal::WindowRows);
    }
    let contacts = Table {
        area: contacts,
        count: device.contacts,
    };
    if window::unknown(contacts, peer, window) {
        return Err(Refusal::UnknownContact);
    }
    if to != Some(peer) {
        return Err(Refusal::WrongExchange);
    }
    Ok(())
}

// A peer's list of prefixes: more of it are listed, and the empty list, which ends it, is answered with fetches, tombs and offers.
// (A call is lent what the exported functions of crate goosetable are lent, each area and each value by itself.)
pub fn receive_inventory(
    exchange: &mut Exchange,
    device: Device,
    peer: ContactId,
    contacts: &[u8; CONTACT_AREA],
    own: &[u8; OWN_AREA],
    carried: &[u8; CARRIED_AREA],
    tombstones: &[u8],
    bad_tags: &[u8],
    window: &[u8],
    listed: &[u8],
    prefixes: &mut [u8],
    offers: &mut [u8],
    replies: &mut [u8],
) -> Result<Said, Refusal>
    ensures { Lends received_says (inventory_received (length replies.old) window.now peer listed.now) result
        (received_in device contacts.now own.now carried.now tombstones.now bad_tags.now exchange.old prefixes.old offers.old)
        (received_in device contacts.now own.now carried.now tombstones.now bad_tags.now exchange.new prefixes.new offers.new)
        (replies_lent replies.old) (replies_lent replies.new)
        (inventory_leaves peer (prefix_rows listed.now) exchange.old) exchange.old exchange.new }
{
    let room = Room {
        prefixes: prefixes.len(),
        offers: offers.len(),
        replies: replies.len(),
    };
    tested(device, exchange.peer, peer, contacts, window, listed, room)?;
    let l = exchange.listed.min(MAX_INVENTORY);
    let more = listed.len() / PREFIX_WIDTH;
    if too_many(exchange.complete, l, more) {
        return Ok(Said::Malformed);
    }
    if more > 0 {
        list_more(exchange, prefixes, l, listed);
        return Ok(Said::Done(0, 0));
    }
    let held = held_here(device, own, carried);
    let lookup = Lookup {
        peer,
        window,
        bad_tags: Table {
            area: bad_tags,
            count: device.bad_tags,
        },
        tombstones: Table {
            area: tombstones,
            count: device.tombstones,
        },
    };
    let all = Rows {
        area: prefixes,
        n: l,
    };
    Ok(answer_inventory(exchange, &held, &lookup, all, offers, replies))
}

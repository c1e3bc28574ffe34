// What is offered to a peer: of the rows held here, own rows first, those that are offered are flagged; then the flagged ones are written, as replies and as offers.
#![tactic(auto)]

ghost use Rattle.std.specs.Prelude.{◌≡◌, ◌+◌, ◌*◌, ◌<◌, ◌≤◌, length};
ghost use Rattle.rows.specs.Rows.{offer_width, reply_width, tombstone_codec};
ghost use Rattle.model.specs.Window.{prefix_codec};
ghost use Rattle.model.specs.Exchange.{halved};
ghost use Rattle.offers.specs.Areas.{rows_of, how_many, own_of, carried_of, held_row, held_entry, held_envelope};
ghost use Rattle.offers.specs.Entries.{held_envelopes, entries, row_of};
ghost use Rattle.offers.specs.Offers.{half_of, offered_of, Inserted, Handed, ListsOffers, halves_of, WritesOffers};

mod area;

pub use area::Rows;
use courier::Header;
use courier_core::ContactId;
use rows::{
    CARRIED_WIDTH, Carried, OFFER_WIDTH, OWN_WIDTH, Offer, Own, PREFIX_WIDTH, REPLY_WIDTH,
    Row as _, TOMBSTONE_WIDTH, Tombstone,
};

// ---- the held rows, own rows first, then carried ones

// The rows held here.
#[derive(Clone, Copy)]
pub struct Held<'a> {
    pub own: Rows<'a, OWN_WIDTH>,
    pub carried: Rows<'a, CARRIED_WIDTH>,
}

// A held row, as it was read.
enum HeldRow {
    Own(Own),
    Carried(Carried),
}

// What is asked of a held row that may go to a peer.
#[derive(Clone, Copy)]
pub struct Row {
    pub tag: [u8; 16],
    pub copies: u8,
}

impl<'a> Held<'a> {
    // How many there are.
    pub fn len(&self) -> usize
        ensures { result ≡ how_many self.now }
    {
        self.own.n + self.carried.n
    }

    // The row at i, as it lies in its area. (Each function of an index asks that it is below the rows' number: as plain as a slice's index.)
    fn at(&self, i: usize) -> HeldRow
        requires { i < how_many self.now }
        ensures { result ≡ held_row self.now i }
    {
        if i < self.own.n {
            return HeldRow::Own(Own::read(self.own.area, i * OWN_WIDTH));
        }
        let at = (i - self.own.n) * CARRIED_WIDTH;
        HeldRow::Carried(Carried::read(self.carried.area, at))
    }

    // The row at i, if it may go to the peer: an own row that is for the peer does not.
    // (Read in a branch for each kind: a `HeldRow` has own and carried tags at different places, so that a tag out of it is put together of two parts.)
    // (An array field is taken out by a `let`: put straight into the literal, the borrow check does not cover it.)
    pub fn row_at(&self, i: usize, peer: ContactId) -> Option<Row>
        requires { i < how_many self.now }
        ensures { result ≡ row_of (held_entry peer self.now i) }
    {
        if i < self.own.n {
            let row = Own::read(self.own.area, i * OWN_WIDTH);
            if row.contact == peer {
                return None;
            }
            let Own { tag, copies, .. } = row;
            return Some(Row { tag, copies });
        }
        let at = (i - self.own.n) * CARRIED_WIDTH;
        let Carried { tag, copies, .. } = Carried::read(self.carried.area, at);
        Some(Row { tag, copies })
    }

    // The row at i, as a reply offers it.
    fn offered_at(&self, i: usize) -> Offered
        requires { i < how_many self.now }
        ensures { result ≡ offered_of (held_envelope self.now i) }
    {
        match self.at(i) {
            HeldRow::Own(row) => Offered {
                cell: answers::own_cell(row.cell),
                head: with_half_the_copies(answers::own_header(row)),
            },
            HeldRow::Carried(row) => Offered {
                cell: answers::carried_cell(row.cell),
                head: with_half_the_copies(answers::carried_header(row)),
            },
        }
    }
}

// ---- listing them

// Flags the rows that are offered to the peer: those that may go there, have copies above 1, and have none of the listed prefixes and none of the
// tombstones' tags.
// Answers for how many rows the tombstones were searched: those that the listing left in question.
// (Listing and writing are two walks with a flag for each row between them, by docs/DECISIONS.md, 91: a later rule can leave flagged rows out. No call does so now.)
// (Document 01 names this form: nested searches, left from inside by a labelled break at the first match. By `Table::any` in their place the proof
// closes too, and the time is about the same: of 512 rows, 512 prefixes and 1,024 tombstones 0.45 ms as it is, 0.40 ms by `any`: document 01 has this form.)
pub fn list_offers(
    held: &Held,
    peer: ContactId,
    listed: Rows<PREFIX_WIDTH>,
    tombstones: Rows<TOMBSTONE_WIDTH>,
    flags: &mut [bool],
) -> usize
    requires { how_many held.now ≤ length flags.old }
    ensures { ListsOffers (rows_of tombstone_codec tombstones.entry) (rows_of prefix_codec listed.entry)
        (entries peer (own_of held.now) (carried_of held.now)) flags.old result flags.new }
{
    let mut searched = 0;
    for i in 0..held.len() {
        flags[i] = false;
        'row: {
            let Some(row) = held.row_at(i, peer) else {
                break 'row;
            };
            if row.copies <= 1 {
                break 'row;
            }
            for j in 0..listed.n {
                if octets::same(listed.area, j * PREFIX_WIDTH, &row.tag[..PREFIX_WIDTH]) {
                    break 'row;
                }
            }
            searched += 1;
            for t in 0..tombstones.n {
                if octets::same(
                    tombstones.area,
                    t * TOMBSTONE_WIDTH + Tombstone::TAG,
                    &row.tag,
                ) {
                    break 'row;
                }
            }
            flags[i] = true;
        }
    }
    searched
}

// ---- writing them

// An envelope as a reply offers it.
#[derive(Drop)]
struct Offered {
    cell: u16,
    head: Header,
}

// Half of an envelope's copies are offered.
fn with_half_the_copies(head: Header) -> Header
    ensures { result ≡ half_of head }
{
    Header {
        copies: head.copies / 2,
        ..head
    }
}

// The source's `BTreeMap::insert`: puts an offer in the place of the one with its tag, or behind the k that are there; answers how many there are.
// (Rows are written into lent areas, with their number beside: no heap.)
// (`Offer::replace` and `push` do not say that the offer's numbers are within their widths, as `bytes` does, on which the offers that follow rest; tried.)
fn insert_offer(offers: &mut [u8], k: usize, row: Offer) -> usize
    requires { k * offer_width + offer_width ≤ length offers.old }
    ensures { Inserted offers.old k row result offers.new }
{
    let b = row.bytes();
    match table::find(offers, OFFER_WIDTH, k, Offer::TAG, &row.tag) {
        Some(i) => {
            table::replace(offers, OFFER_WIDTH, k, i, &b);
            k
        }
        None => table::push(offers, OFFER_WIDTH, k, &b),
    }
}

// How many replies and offers there are.
#[derive(Clone, Copy)]
pub struct Counts {
    pub replies: usize,
    pub offers: usize,
}

// Offers the row at i: writes its reply and its offer behind those that are there.
fn offer_row(held: &Held, i: usize, replies: &mut [u8], offers: &mut [u8], sent: Counts) -> Counts
    requires i_in_bounds { i < how_many held.now }
    requires room { (sent.replies * reply_width + reply_width ≤ length replies.old) × (sent.offers * offer_width + offer_width ≤ length offers.old) }
    ensures reply { result.replies ≡ sent.replies + 1 }
    ensures offer { Handed (halved (held_envelope held.now i))
        replies.old sent.replies offers.old sent.offers replies.new result.offers offers.new }
{
    let it = held.offered_at(i);
    answers::put_envelope(replies, sent.replies * REPLY_WIDTH, it.cell, it.head);
    let Header { tag, copies, .. } = it.head;
    Counts {
        replies: sent.replies + 1,
        offers: insert_offer(offers, sent.offers, Offer { tag, copies }),
    }
}

// Writes the flagged rows: their replies behind the first ones, and their offers.
pub fn write_offers(
    held: &Held,
    flags: &[bool],
    replies: &mut [u8],
    first: usize,
    offers: &mut [u8],
) -> Counts
    requires in_bounds { how_many held.now ≤ length flags.now }
    requires room { ((first + (how_many held.now)) * reply_width ≤ length replies.old)
        × ((how_many held.now) * offer_width ≤ length offers.old) }
    ensures { WritesOffers (halves_of flags.now (held_envelopes (own_of held.now) (carried_of held.now)))
        replies.old first offers.old result.replies replies.new result.offers offers.new }
{
    let mut sent = Counts {
        replies: first,
        offers: 0,
    };
    for i in 0..held.len() {
        if flags[i] {
            sent = offer_row(held, i, replies, offers, sent);
        }
    }
    sent
}

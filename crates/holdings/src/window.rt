// The window's rows: what is wrong with them, the row of a tag, and whether their contacts are known.
// (A slice, as each call is lent it: a struct of it would be made in two calls, and opened again in each of these functions.)
#![tactic(auto)]

ghost use Rattle.std.specs.Prelude.{◌≡◌, ◌+◌, ◌*◌, ◌≤◌, true, not, ◌||◌, length, MatchOption};
ghost use Rattle.octets.specs.Bytes.{part};
ghost use Rattle.table.specs.Lists.{any};
ghost use Rattle.table.specs.Tables.{rows_in};
ghost use Rattle.rows.specs.Rows.{contact_codec, reachable_width, reachable_of};
ghost use Rattle.model.specs.Contacts.{known as known_of};
ghost use Rattle.model.specs.Window.{strangers as some_stranger, window_rows, lookup, wrong_direction, key_below, keys_rise, wrong_window};

use crate::known;
use chain::no_dir;
use courier_core::ContactId;
use rows::{CONTACT_WIDTH, REACHABLE_WIDTH, Reachable, Row};
use table::Table;

// ---- the rows by their tags

// The first row whose tag begins with a key of 16 bytes at most. Every row is looked at.
fn lookup_key(window: &[u8], key: &[u8]) -> Option<usize>
    requires { length key.now ≤ 16 }
    ensures { result ≡ lookup (window_rows window.now) key.now }
{
    let n = window.len() / REACHABLE_WIDTH;
    table::scan(window, REACHABLE_WIDTH, n, Reachable::TAG, key)
}

// The first row with the tag. (Two public functions over that one: it asks that the key is no longer than a tag, and these, of the two lengths that
// calls have, ask nothing of callers.)
pub fn lookup(window: &[u8], tag: [u8; 16]) -> Option<usize>
    ensures { result ≡ lookup (window_rows window.now) tag }
{
    lookup_key(window, &tag)
}

// The first row whose tag begins with the prefix.
pub fn lookup_prefix(window: &[u8], prefix: [u8; 8]) -> Option<usize>
    ensures { result ≡ lookup (window_rows window.now) prefix }
{
    lookup_key(window, &prefix)
}

// ---- what is wrong with them

fn wrong_directions(window: &[u8]) -> bool
    ensures { result ≡ any wrong_direction (window_rows window.now) }
{
    table::any(
        window,
        REACHABLE_WIDTH,
        window.len() / REACHABLE_WIDTH,
        |row| no_dir(row[Reachable::DIR]),
    )
}

// (contact, dir, generation, index): a derived order would have the tag too, which is no part of the key.
fn key_below(a: Reachable, b: Reachable) -> bool
    ensures { result ≡ key_below a b }
{
    (a.contact.0, a.dir, a.generation, a.idx) < (b.contact.0, b.dir, b.generation, b.idx)
}

// Is the key of the row at a place below that of the next?
fn rises(window: &[u8], at: usize) -> bool
    requires { at + 2 * reachable_width ≤ length window.now }
    ensures { result ≡ key_below (reachable_of (part window.now at reachable_width)) (reachable_of (part window.now (at + reachable_width) reachable_width)) }
{
    key_below(
        Reachable::read(window, at),
        Reachable::read(window, at + REACHABLE_WIDTH),
    )
}

fn keys_rise(window: &[u8]) -> bool
    ensures { result ≡ keys_rise (window_rows window.now) }
{
    (1..window.len() / REACHABLE_WIDTH).all(
        |i|
            requires { (1 ≤ i) × (i * reachable_width + reachable_width ≤ length window.now) }
        { rises(window, (i - 1) * REACHABLE_WIDTH) },
    )
}

// `WindowRows`: not whole rows, a direction not `I` or `R`, keys not rising.
pub fn wrong_window(window: &[u8]) -> bool
    ensures { result ≡ wrong_window window.now }
{
    window.len() % REACHABLE_WIDTH > 0 || wrong_directions(window) || !keys_rise(window)
}

// ---- their contacts

// Is a contact not known? The one before it, if there is one, is known, and so this one is looked for only where it is another.
fn is_stranger(contacts: Table<CONTACT_WIDTH>, before: Option<ContactId>, id: ContactId) -> bool
    requires { MatchOption before Unit (λ b. known_of (rows_in contact_codec contacts) b ≡ true) }
    ensures { result ≡ not (known_of (rows_in contact_codec contacts.entry) id) }
{
    before != Some(id) && !known(contacts, id)
}

// Is a contact of a window's rows not known? The rows of a contact follow each other.
// (By index: over `chunks_exact` the loop would go by laws of chunks, and a closure for `any` would change the contact before.)
pub fn strangers(contacts: Table<CONTACT_WIDTH>, window: &[u8]) -> bool
    ensures { result ≡ some_stranger (rows_in contact_codec contacts.entry) (window_rows window.now) }
{
    let mut before = None;
    for i in 0..window.len() / REACHABLE_WIDTH {
        let id = ContactId(octets::get_u64(window, i * REACHABLE_WIDTH));
        if is_stranger(contacts, before, id) {
            return true;
        }
        before = Some(id);
    }
    false
}

// `UnknownContact`: the peer, or a contact in the window, isn't known.
pub fn unknown(contacts: Table<CONTACT_WIDTH>, peer: ContactId, window: &[u8]) -> bool
    ensures { result ≡ (not (known_of (rows_in contact_codec contacts.entry) peer) || some_stranger (rows_in contact_codec contacts.entry) (window_rows window.now)) }
{
    !known(contacts, peer) || strangers(contacts, window)
}

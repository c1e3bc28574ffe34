// What is written: a line for each row or answer, its parts as document 01 names them.
use host_answers::{Answer, DONE, MISSING};
use rows::{Action, Carried, Device, Own, PREFIX_WIDTH, Reply, Row, Tombstone};
use std::{fmt, io};

// The number that is written of a fetch that finds nothing.
const NOTHING: u8 = 255;

// A tag or a secret: its first and its last byte.
#[derive(Clone, Copy)]
struct Ends([u8; 16]);

impl fmt::Display for Ends {
    fn fmt<W: fmt::Write>(&self, f: &mut fmt::Formatter<W>) -> fmt::Result {
        let first = self.0[0];
        let last = self.0[15];
        write!(f, "{first:02x}..{last:02x}")
    }
}

// Rows of any kind, by the function that writes one.
pub fn show_rows<P: Print, R: Row<N>, const N: usize, F: Fn(&P, R) -> io::Result<()>>(
    rt: &P,
    rows: &[[u8; N]],
    show: F,
) -> io::Result<()>
    requires { F.IsAlwaysCallable show }
{
    for bytes in rows {
        show(rt, R::read(bytes, 0))?;
    }
    Ok(())
}

// ---- replies and actions
// (Their kinds are bytes, as the host's area has them: crate rows names those that there are.)

// A reply: its kind and tag; then of an envelope its cell, expiry and copies, of a custody the code, of a tomb the secret.
#[tactic(auto, unfolding(courier::specs::Courier::envelope_decode))]
pub fn show_reply<P: Print>(rt: &P, row: Reply) -> io::Result<()> {
    let tag = Ends(octets::get_array(&row.body, 0));
    match row.kind {
        Reply::FETCH => println!(rt; "fetch {tag}"),
        Reply::ENVELOPE => {
            let header = courier::decode(&row.body, 0).unwrap();
            println!(rt;
                "envelope {tag} cell {} expiry {} copies {}",
                row.cell, header.expiry_min, header.copies
            )
        }
        Reply::CUSTODY => println!(rt; "custody {tag} {}", row.body[Reply::BEHIND_TAG]),
        Reply::TOMB => {
            println!(rt;
                "tomb {tag} {}",
                Ends(octets::get_array(&row.body, Reply::BEHIND_TAG))
            )
        }
        kind => println!(rt; "unknown reply {kind}"),
    }
}

// A fetch: 0 and the ciphertext's length, with the envelope; or a refusal's number, or that of none, and 0.
pub fn show_fetched(rt: &impl Print, answer: &Answer, envelope: Reply) -> io::Result<()> {
    match answer.said {
        DONE => {
            println!(rt; "answer 0 {}", answer.length)?;
            show_reply(rt, envelope)
        }
        MISSING => println!(rt; "answer {NOTHING} 0"),
        why => println!(rt; "answer {why} 0"),
    }
}

// An action: a slot put or deleted, or an own row's contact and message number.
pub fn show_action<P: Print>(rt: &P, row: Action) -> io::Result<()> {
    match row.kind {
        Action::PUT => println!(rt; "put {}", row.number),
        Action::DELETE => println!(rt; "del {}", row.number),
        Action::PUT_QUEUED => println!(rt; "own put {} {}", row.number, row.msgno),
        kind => println!(rt; "unknown action {kind}"),
    }
}

// ---- rows and counts

// Slot, depositor, tag, expiry, copies.
pub fn show_carried<P: Print>(rt: &P, row: Carried) -> io::Result<()> {
    println!(rt;
        "carried {} {} {} expiry {} copies {}",
        row.slot,
        row.depositor.0,
        Ends(row.tag),
        row.expiry_min,
        row.copies
    )
}

// Contact, message number, tag, expiry, copies, renewed.
pub fn show_own<P: Print>(rt: &P, row: Own) -> io::Result<()> {
    println!(rt;
        "own {} {} {} expiry {} copies {} renewed {}",
        row.contact.0,
        row.msgno,
        Ends(row.tag),
        row.expiry_min,
        row.copies,
        row.renewed
    )
}

// Slot, tag, secret, expiry.
pub fn show_tombstone<P: Print>(rt: &P, row: Tombstone) -> io::Result<()> {
    println!(rt;
        "tombstone {} {} {} expiry {}",
        row.slot,
        Ends(row.tag),
        Ends(row.s),
        row.expiry_min
    )
}

// How many own rows, carried rows and tombstones there are.
pub fn show_counts(rt: &impl Print, device: &Device) -> io::Result<()> {
    println!(rt;
        "held {} {} {}",
        device.own, device.carried, device.tombstones
    )
}

// How many prefixes there are, and the first byte of each.
pub fn show_prefixes(rt: &impl Print, prefixes: &[[u8; PREFIX_WIDTH]]) -> io::Result<()> {
    print!(rt; "ours {}:", prefixes.len())?;
    for prefix in prefixes {
        print!(rt; " {:02x}", prefix[0])?;
    }
    println!(rt)
}

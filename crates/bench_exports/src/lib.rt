// What the benchmark measures, for Rust to link.
#![tactic(auto)]

ghost use Rattle.std.specs.Prelude.{◌≡◌};
ghost use Rattle.sha384.specs.Sha384.{sha384};
ghost use Rattle.rows.specs.Limits.{max_carried};
ghost use Rattle.bench_exports.specs.Tags.{tagged};

use octets::same;
use rows::{CARRIED_AREA, CARRIED_WIDTH, Carried, MAX_CARRIED};

// SHA-384 of m.
#[unsafe(no_mangle)]
pub extern "C" fn bench_sha384(m: &[u8], out: &mut [u8; 48])
    ensures { out.new ≡ sha384 m.now }
{
    *out = sha384::hash(m);
}

// How many of the carried rows of a full table have the tag.
#[unsafe(no_mangle)]
pub extern "C" fn bench_tagged(rows: &[u8; CARRIED_AREA], tag: &[u8; 16]) -> usize
    ensures { result ≡ tagged rows.now tag.now max_carried }
{
    table::count(rows, CARRIED_WIDTH, MAX_CARRIED, |row| {
        same(row, Carried::TAG, tag)
    })
}

// The calls of a sample that end rows, those of blobs, files, the window and pages, and the call of any record.
#![tactic(auto)]

use host_answers::{
    Answer, DONE, MISSING, Row, acted_answer, answer_of, blob_answer, done_answer, tomb_answer,
    wrote_answer,
};
use replay_calls::{Post, Writer, front, front_mut};
use replay_log::{Kind, Record};
use state::Held;

// ---- tombs, reports, tombstones, maintenance

fn call_tomb(p: &mut Post, r: &Record) -> Answer {
    tomb_answer(
        tombs::receive_tomb(
            &mut p.device,
            r.peer(),
            r.tag(),
            r.second(),
            &p.contacts,
            &mut p.own,
            &mut p.carried,
            front_mut(&mut p.tombstones, p.lent.tombstones),
            front_mut(&mut p.actions, r.actions_area()),
        ),
        0,
    )
}

fn call_opened(p: &mut Post, r: &Record) -> Answer {
    tomb_answer(
        reports::report_opened(
            &mut p.device,
            r.peer(),
            r.tag(),
            r.second(),
            r.expiry(),
            &p.contacts,
            front_mut(&mut p.tombstones, p.lent.tombstones),
            front_mut(&mut p.replies, r.replies_area()),
            front_mut(&mut p.actions, r.actions_area()),
        ),
        1,
    )
}

fn call_failed(p: &mut Post, r: &Record) -> Answer {
    tomb_answer(
        reports::report_failed(
            &mut p.device,
            r.peer(),
            r.tag(),
            &p.contacts,
            front_mut(&mut p.bad_tags, p.lent.bad_tags),
        ),
        0,
    )
}

fn call_stored_tombstone(p: &mut Post, r: &Record) -> Answer {
    acted_answer(stored_tombstone::stored_tombstone(
        &mut p.device,
        r.tag(),
        r.second(),
        r.expiry(),
        front_mut(&mut p.tombstones, p.lent.tombstones),
        front_mut(&mut p.actions, r.actions_area()),
    ))
}

fn call_maintenance(p: &mut Post, r: &Record) -> Answer {
    acted_answer(maintenance::maintain_couriers(
        &mut p.device,
        &mut p.own,
        &mut p.carried,
        front_mut(&mut p.tombstones, p.lent.tombstones),
        front_mut(&mut p.actions, r.actions_area()),
    ))
}

// ---- held rows as blobs, files, the window, pages: what is written goes to the front of `replies`, as these calls list no reply

fn call_window(p: &mut Post, r: &Record) -> Answer {
    let area = front_mut(&mut p.replies, r.answer_area());
    let answer = wrote_answer(chain::window(r.front, r.rest, area));
    p.wrote = answer.length.saturating_mul(chain::KEY_WIDTH);
    answer
}

fn call_row_blob(p: &mut Post, r: &Record) -> Answer {
    let answer = blob_answer(saved::row_blob(
        p.device,
        r.number(),
        &p.carried,
        front(&p.tombstones, p.lent.tombstones),
        front(&p.cells, p.lent.cells),
        front_mut(&mut p.replies, r.answer_area()),
    ));
    p.wrote = answer.length;
    answer
}

// A held row as a host reads it: kind, depositor, tag, commitment or secret, expiry, copies; and its ciphertext.
fn put_row(row: Row, ct: &[u8], area: &mut [u8]) -> usize {
    let mut writer = Writer::new(area);
    writer.put(&[row.kind]);
    writer.put(&row.depositor.to_be_bytes());
    writer.put(&row.tag);
    writer.put(&row.second);
    writer.put(&row.expiry_min.to_be_bytes());
    writer.put(&[row.copies]);
    writer.put(ct);
    writer.end()
}

// A carried row's ciphertext is what stands behind the blob's head.
fn call_row_read(p: &mut Post, r: &Record) -> Answer {
    let held = state::decode(r.rest);
    let ct = match held {
        Some(Held::Carried(_)) => r.rest.get(state::CARRIED_HEAD..).unwrap_or(b""),
        _ => b"",
    };
    let row = Row::from(held);
    if row.kind == Row::NONE {
        return answer_of(MISSING, 0, 0, 0);
    }
    p.wrote = put_row(row, ct, &mut p.replies);
    answer_of(DONE, 0, 0, 0)
}

fn call_save(p: &mut Post, r: &Record) -> Answer {
    let answer = wrote_answer(saved::save(
        p.device,
        &p.carried,
        front(&p.tombstones, p.lent.tombstones),
        front(&p.cells, p.lent.cells),
        front_mut(&mut p.replies, r.answer_area()),
    ));
    p.wrote = answer.length;
    answer
}

fn call_load(p: &mut Post, r: &Record) -> Answer {
    done_answer(load::load(
        &mut p.device,
        &p.contacts,
        &mut p.carried,
        front_mut(&mut p.tombstones, p.lent.tombstones),
        front_mut(&mut p.cells, p.lent.cells),
        r.rest,
    ))
}

fn call_page(p: &mut Post, r: &Record) -> Answer {
    let answer = wrote_answer(screen::page(
        p.device,
        r.number(),
        &p.carried,
        front(&p.tombstones, p.lent.tombstones),
        front_mut(&mut p.replies, r.answer_area()),
    ));
    p.wrote = answer.length;
    answer
}

// ---- the call of a record

pub fn perform(p: &mut Post, r: &Record) -> Answer {
    p.wrote = 0;
    match r.kind {
        Kind::Contact => replay_calls::call_contact(p, r),
        Kind::Setting => replay_calls::call_setting(p, r),
        Kind::Clock => replay_calls::call_clock(p, r),
        Kind::FreshExchange => replay_calls::call_fresh_exchange(p, r),
        Kind::Envelope => replay_calls::call_envelope(p, r),
        Kind::Inventory => replay_calls::call_inventory(p, r),
        Kind::Fetch => replay_calls::call_fetch(p, r),
        Kind::CustodyCode => replay_calls::call_custody_code(p, r),
        Kind::Tomb => call_tomb(p, r),
        Kind::Opened => call_opened(p, r),
        Kind::Failed => call_failed(p, r),
        Kind::StoredTombstone => call_stored_tombstone(p, r),
        Kind::OwnEnvelope => replay_calls::call_own_envelope(p, r),
        Kind::Maintenance => call_maintenance(p, r),
        Kind::InventoryOfOurs => replay_calls::call_inventory_of_ours(p, r),
        Kind::Window => call_window(p, r),
        Kind::RowBlob => call_row_blob(p, r),
        Kind::RowRead => call_row_read(p, r),
        Kind::Save => call_save(p, r),
        Kind::Load => call_load(p, r),
        Kind::Page => call_page(p, r),
    }
}

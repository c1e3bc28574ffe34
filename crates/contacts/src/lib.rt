// The calls that set the contacts, the configuration, the clock and the exchange: contact, setting, clock, fresh exchange.
#![tactic(auto)]

ghost use Rattle.model.specs.Calls.{contact as contact_call, setting as setting_call, clock as clock_call, open_exchange};
ghost use Rattle.model.specs.Lent.{Does, no_answers, device_in, contacts_in};
ghost use Rattle.holdings.specs.Lends.{Lends};
ghost use Rattle.contacts.specs.Answers.{said_of};
ghost use Rattle.contacts.specs.Fresh.{fresh_leaves, fresh_in};

use courier_core::{ContactId, Refusal, Verification};
use holdings::{contact_place, known, short_exchange};
use rows::{CONTACT_AREA, Contact, Device, Exchange, MAX_CONTACTS, Row};
use state::CourierConfig;
use table::Table;

// Sets the clock.
pub fn clock(device: &mut Device, seconds: u64)
    ensures { Does said_of (clock_call seconds) (Ok tt) (device_in device.old) (device_in device.new) no_answers no_answers }
{
    device.now_s = seconds;
}

// Sets the configuration, if it is in its range.
pub fn setting(device: &mut Device, enabled: bool, copies: u8, lifetime: u16) -> Result<(), Refusal>
    ensures { Does said_of (setting_call enabled copies lifetime) result (device_in device.old) (device_in device.new) no_answers no_answers }
{
    device.courier = CourierConfig::new(enabled, copies, lifetime)?;
    Ok(())
}

// Adds a contact, or alters a known one in its place. One more than `MAX_CONTACTS` is refused with `LogRecord`: a log has no other number for it.
pub fn contact(
    device: &mut Device,
    id: ContactId,
    verification: Verification,
    contacts: &mut [u8; CONTACT_AREA],
) -> Result<(), Refusal>
    ensures { Does said_of (contact_call id verification) result (λ a. device_in device.old (contacts_in contacts.old a)) (λ a. device_in device.new (contacts_in contacts.new a)) no_answers no_answers }
{
    let count = device.contacts;
    let row = Contact {
        id,
        verification: verification.byte(),
    };
    let table = Table {
        area: contacts,
        count,
    };
    match contact_place(table, id) {
        Some(i) => device.contacts = Contact::replace(contacts, count, i, row),
        None => {
            if table.len() >= MAX_CONTACTS {
                return Err(Refusal::LogRecord);
            }
            device.contacts = Contact::push(contacts, count, row);
        }
    }
    Ok(())
}

// Opens the exchange for a contact: nothing is listed or offered in it. On a refusal the one that was there stays.
// (The call is lent what the exported function of crate goosetable is lent: each area by itself.)
pub fn fresh_exchange(
    exchange: &mut Exchange,
    device: Device,
    peer: ContactId,
    contacts: &[u8; CONTACT_AREA],
    prefixes: &[u8],
    offers: &[u8],
) -> Result<(), Refusal>
    ensures { Lends said_of (open_exchange peer) result
        (fresh_in device contacts.now exchange.old prefixes.now offers.now)
        (fresh_in device contacts.now exchange.new prefixes.now offers.now) no_answers no_answers
        (fresh_leaves peer) exchange.old exchange.new }
{
    if short_exchange(prefixes.len(), offers.len()) {
        return Err(Refusal::ShortArea);
    }
    let known_contacts = Table {
        area: contacts,
        count: device.contacts,
    };
    if !known(known_contacts, peer) {
        return Err(Refusal::UnknownContact);
    }
    *exchange = Exchange::fresh(peer);
    Ok(())
}

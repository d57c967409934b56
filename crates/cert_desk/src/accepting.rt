//! Decides which orders are accepted.

ghost use Rattle.std.specs.Prelude.{◌≡◌, ◌≢◌, ◌↔◌, ◌<◌, ◌^◌, true, false, string_bytes, nat_lt};
ghost use Rattle.std.specs.Prelude.{Option, None, Ok, IsTrue, IfOk, IfErr, IfSome, IsSomeAnd, OnOk};
ghost use Rattle.std.specs.List.{list_all};
ghost use Rattle.cert_desk_listing.specs.Oid.Bound.{Bound};
ghost use Rattle.cert_desk_listing.specs.Der.Grammar.{plain_list, plain_option};
ghost use Rattle.cert_desk_listing.specs.Der.Ranges.{IsInRange};
ghost use Rattle.cert_desk_orders.specs.CertParts.Grammar.{PublicKey, time};
ghost use Rattle.cert_desk_orders.specs.CertParts.Times.{time_of};
ghost use Rattle.cert_desk_orders.specs.CertParts.Views.{key_plain, time_date, time_value};
ghost use Rattle.cert_desk_orders.specs.CertParts.Views.{validity_plain};
ghost use Rattle.cert_desk_listing.specs.CertNames.Views.{name_plain};
ghost use Rattle.cert_desk_orders.specs.CertParts.SerialNumbers.{new_serial};
ghost use Rattle.cert_desk_listing.specs.CertNames.PlainTexts.{SpellsName};
ghost use Rattle.cert_desk.specs.Acceptance.{IsAccepted, IsNamedFor, IsTextOf};
ghost use Rattle.cert_desk.specs.Acceptance.{SpellDates, names_subscriber};
ghost use Rattle.cert_desk.specs.PlainOrders.{HasNamesFor, accepted_plain};
ghost use Rattle.cert_desk.specs.Refusals.{HasFaultyDates, HasName, IsNoDate};
ghost use Rattle.cert_desk.specs.Refusals.{RefusesName, RefusesOrder};

use crate::accepted::Accepted;
use crate::fault::Fault;
use crate::role::Role;
use cert_desk_listing::cert_names::Name;
use cert_desk_listing::der::{InRange, making};
use cert_desk_orders::Order;
use cert_desk_orders::cert_parts::{SerialNumber, SubjectPublicKeyInfo, Time, Validity};
use std::alloc::Global;
use std::str::FromStr;
use x509_cert_builders::{Error, all_stay, ca_certificate_naming};

/// Parses the name of an order.
fn name_of(alloc: Global, order: &Order) -> Result<Name, Fault>
    ensures spelled { IfOk result
        (λ n. SpellsName Bound (string_bytes order.now.name) (name_plain n)) }
    ensures refused { (role : Role) (key : Option PublicKey)
        → IfErr result (λ f. RefusesOrder role key order.now f) }
{
    match Name::from_str(alloc, order.name.as_str()) {
        Ok(name) => Ok(name),
        Err(error) => {
            if making::is_out_of_memory(&error) {
                return Err(Fault::OutOfMemory);
            }
            Err(Fault::Name)
        }
    }
}

/// Returns whether the name is allowed for a subscriber, which is an end entity.
fn names_subscriber(subject: &Name) -> bool
    ensures { result ≡ names_subscriber (name_plain subject.now) }
{
    for relative in subject.iter_rdn() {
        if !all_stay(relative.as_slice()) {
            return false;
        }
    }
    true
}

/// Checks that the name is allowed for the certificate of a role.
fn check_name(alloc: Global, role: Role, subject: &Name) -> Result<(), Fault>
    ensures right { OnOk result (IsNamedFor role (name_plain subject.now)) }
    ensures refused { IfErr result (λ f. RefusesName role (name_plain subject.now) f) }
{
    match role {
        Role::Root => match ca_certificate_naming(alloc, subject) {
            Ok(()) => Ok(()),
            Err(Error::Asn1(error)) if making::is_out_of_memory(&error) => Err(Fault::OutOfMemory),
            Err(error) => Err(Fault::RootName(error)),
        },
        Role::Subordinate => Ok(()),
        Role::Subscriber => {
            if names_subscriber(subject) {
                return Ok(());
            }
            Err(Fault::SubscriberName)
        }
    }
}

/// Parses the subject of an order, and checks that it is allowed for the role.
fn subject_of(alloc: Global, role: Role, order: &Order) -> Result<Name, Fault>
    ensures spelled { IfOk result
        (λ n. SpellsName Bound (string_bytes order.now.name) (name_plain n)) }
    ensures right { IfOk result (λ n. IsNamedFor role (name_plain n)) }
    ensures refused { (key : Option PublicKey)
        → IfErr result (λ f. RefusesOrder role key order.now f) }
{
    let subject = name_of(alloc, order)?;
    check_name(alloc, role, &subject)?;
    Ok(subject)
}

/// Returns the serial number of an order whose name is accepted.
fn serial_of(alloc: Global, order: &Order) -> Result<SerialNumber, Fault>
    ensures number { IfOk result (λ n. new_serial order.now.serial.items ≡ Ok n) }
    ensures refused { (role : Role) (key : Option PublicKey) → HasName role order.now
        → IfErr result (λ f. RefusesOrder role key order.now f) }
{
    match SerialNumber::new(alloc, order.serial.as_slice()) {
        Ok(serial) => Ok(serial),
        Err(error) => {
            if making::is_out_of_memory(&error) {
                return Err(Fault::OutOfMemory);
            }
            Err(Fault::Serial)
        }
    }
}

/// Proves that a date is in the range of its form: it is a date of the calendar, up to 2049 as a
/// UTCTime. The function does nothing.
fn time_in_range(spelled: &Time)
    ensures { IsInRange time (time_value spelled.now) }
{
    spelled.in_range();
}

/// Parses a date.
pub(crate) fn date_of(text: &str) -> Option<Time>
    ensures date { IfSome result (λ t. IsTextOf text.now (time_date t)) }
    ensures spelled { IfSome result (λ t. time_value t ≡ time_of (time_date t)) }
    ensures none { result ≡ None → IsNoDate text.now }
{
    match Time::from_str(text) {
        Ok(date) => {
            time_in_range(&date);
            Some(date)
        }
        Err(_) => None,
    }
}

/// Returns the validity period of an order, or `None` if one of its dates is wrong.
fn validity_of(order: &Order) -> Option<Validity>
    ensures dates { IfSome result
        (λ v. SpellDates (string_bytes order.now.not_before) (string_bytes order.now.not_after)
        (validity_plain v)) }
    ensures faulty { result ≡ None → HasFaultyDates order.now }
{
    let Some(not_before) = date_of(order.not_before.as_str()) else {
        return None;
    };
    let Some(not_after) = date_of(order.not_after.as_str()) else {
        return None;
    };
    if not_after.to_date_time().unix_seconds() < not_before.to_date_time().unix_seconds() {
        return None;
    }
    Some(Validity::new(not_before, not_after))
}

/// Returns whether the text is ASCII.
fn is_ascii(text: &str) -> bool
    ensures { result ≡ list_all (λ o. nat_lt o 128) text.now }
{
    for octet in text.as_bytes() {
        if *octet >= 128 {
            return false;
        }
    }
    true
}

/// Returns whether each text is ASCII.
fn are_ascii(texts: &[String]) -> bool
    ensures { result ≡ list_all (λ text. list_all (λ o. nat_lt o 128) text)
        (plain_list string_bytes texts.now) }
{
    for text in texts {
        if !is_ascii(text.as_str()) {
            return false;
        }
    }
    true
}

/// Returns whether the DNS names are allowed for the certificate of a role.
fn has_dns_names(role: Role, texts: &[String]) -> bool
    ensures { IsTrue result ↔ HasNamesFor role (plain_list string_bytes texts.now) }
{
    match role {
        Role::Root => true,
        Role::Subordinate => true,
        Role::Subscriber => !texts.is_empty() && are_ascii(texts),
    }
}

/// Proves that a path length is one byte. The function does nothing.
fn path_in_range(path: Option<u8>)
    ensures { IfSome path (λ n. n < 2 ^ 8) }
{}

/// Returns whether both keys are equal: they have the same algorithm, parameters and bits.
fn is_same_key(one: &SubjectPublicKeyInfo, other: &SubjectPublicKeyInfo) -> bool
    ensures { IsTrue result ↔ (key_plain one.now ≡ key_plain other.now) }
{
    one.in_range();
    other.in_range();
    one == other
}

/// Returns whether the key of an order is that of its signer, or the order has no signer.
fn is_key_of(signer_key: Option<&SubjectPublicKeyInfo>, key: &SubjectPublicKeyInfo) -> bool
    ensures same { IsTrue result → IfSome (plain_option (λ k. key_plain k.now) signer_key.entry)
        (λ k. k ≡ key_plain key.now) }
    ensures other { result ≡ false
        → IsSomeAnd (plain_option (λ k. key_plain k.now) signer_key.entry)
        (λ k. k ≢ key_plain key.now) }
{
    match signer_key {
        Some(signer_key) => is_same_key(signer_key, key),
        None => true,
    }
}

/// Validates an order for a role, and returns its values, or why it isn't accepted. If the order
/// has a signer, its key must be the signer's.
pub(crate) fn accept_one<'a>(
    alloc: Global,
    role: Role,
    order: &'a Order,
    signer_key: Option<&SubjectPublicKeyInfo>,
) -> Result<Accepted<'a>, Fault>
    ensures accepted { IfOk result
        (λ a. IsAccepted role (plain_option (λ k. key_plain k.now) signer_key.entry)
        order.now (accepted_plain a)) }
    ensures refused { IfErr result
        (λ f. RefusesOrder role (plain_option (λ k. key_plain k.now) signer_key.entry)
        order.now f) }
{
    let subject = subject_of(alloc, role, order)?;
    let serial_number = serial_of(alloc, order)?;
    let Some(validity) = validity_of(order) else {
        return Err(Fault::Dates);
    };
    if !has_dns_names(role, order.dns.as_slice()) {
        return Err(Fault::DnsName);
    }
    if !is_key_of(signer_key, &order.key) {
        return Err(Fault::KeyMismatch);
    }
    path_in_range(order.path_len);
    Ok(Accepted {
        order,
        subject,
        serial_number,
        validity,
    })
}

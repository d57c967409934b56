//! The DNS names of subscribers.

ghost use Rattle.std.specs.Prelude.{◌≡◌, ◌⊎◌, [], IfOk, IfErr, OnOk, string_bytes};
ghost use Rattle.cert_desk_listing.specs.Oid.Bound.{Bound};
ghost use Rattle.cert_desk_listing.specs.Der.ErrorTypes.ErrorKind.TheVariants.{OutOfMemory};
ghost use Rattle.cert_desk_listing.specs.Der.Grammar.{plain_list};
ghost use Rattle.cert_desk_listing.specs.Der.Shapes.{IsValid};
ghost use Rattle.cert_desk_checking.specs.CertGeneralNames.GeneralNameViews.{general_name_plain};
ghost use Rattle.cert_desk_checking.specs.CertGeneralNames.GeneralNames.{general_names};
ghost use Rattle.cert_desk_listing.specs.CertNames.Views.{name_plain};
ghost use Rattle.cert_desk.specs.Ordered.{CanName, dns_names, names_for};
ghost use Rattle.cert_desk.specs.PlainOrders.{accepted_plain};

use crate::accepted::Accepted;
use crate::role::Role;
use crate::stop::Stop;
use cert_desk_checking::cert_general_names::GeneralName;
use cert_desk_listing::der::Error;
use cert_desk_orders::types::Ia5String;
use std::alloc::Global;
use x509_cert_builders::cert_extensions::SubjectAltName;
use x509_cert_builders::{BuilderProfile, CertificateBuilder};

/// Returns DNS names as a subjectAltName.
fn names_of(alloc: Global, texts: &[String]) -> Result<SubjectAltName, Error>
    ensures names { IfOk result (λ n. plain_list general_name_plain n.0.items
        ≡ dns_names (plain_list string_bytes texts.now)) }
    ensures refused { IsValid (general_names Bound) (dns_names (plain_list string_bytes texts.now))
        → IfErr result (λ e. e.kind ≡ OutOfMemory) }
{
    let mut names = Vec::new(alloc);
    for text in texts {
        let name = Ia5String::new(alloc, text.as_bytes())?;
        names.push(GeneralName::DnsName(name))?;
    }
    Ok(SubjectAltName(names))
}

/// Adds the DNS names of a subscriber to a builder that has no extension yet. Adds nothing for
/// other roles.
pub(crate) fn add_names<P: BuilderProfile + Drop>(
    alloc: Global,
    role: Role,
    accepted: &Accepted<'_>,
    builder: &mut CertificateBuilder<P>,
) -> Result<(), Stop>
    requires first { builder.old.added ≡ [] }
    requires subject { builder.old.fields.subject ≡ name_plain accepted.now.subject }
    ensures added { OnOk result (builder.new
        ≡ record builder.old { added = names_for role (accepted_plain accepted.now) }) }
    // Memory runs out, or a length exceeds 2^32 - 1.
    ensures stops { IfErr result (λ s. (s ≡ Stop.OutOfMemory) ⊎ ((s ≡ Stop.TooLong)
        × (CanName role (plain_list string_bytes accepted.now.order.now.dns.items) → ⊥))) }
{
    let Role::Subscriber = role else {
        return Ok(());
    };
    let names = names_of(alloc, accepted.order.dns.as_slice())?;
    builder.add_extension(alloc, &names)?;
    Ok(())
}

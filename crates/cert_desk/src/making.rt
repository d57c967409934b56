//! Builds the certificates of accepted orders.

ghost use Rattle.std.specs.Prelude.{◌≡◌, ◌≤◌, [], ℕ, List, None, Ok, length, IfOk, IfErr};
ghost use Rattle.std.specs.Prelude.{string_bytes};
ghost use Rattle.cert_desk_listing.specs.Der.Grammar.{plain_list};
ghost use Rattle.cert_desk_listing.specs.Der.Integers.{integer_octets};
ghost use Rattle.x509_cert_builders.specs.States.{CertificateState, part_for};
ghost use Rattle.x509_cert_builders.specs.declared.build_error.Error.{Error};
ghost use Rattle.cert_desk_listing.specs.CertCertificates.Certificates.{Tbs};
ghost use Rattle.cert_desk_orders.specs.CertParts.Views.{key_plain};
ghost use Rattle.cert_desk_listing.specs.CertNames.Views.{name_plain};
ghost use Rattle.cert_desk.specs.Making.{IsProfile, Makes, fields_below};
ghost use Rattle.cert_desk.specs.Ordered.{ordered_part};
ghost use Rattle.cert_desk.specs.PlainOrders.{IsReady, accepted_plain};

use crate::accepted::Accepted;
use crate::naming::add_names;
use crate::role::Role;
use crate::stop::Stop;
use cert_desk_listing::cert_certificates::Certificate;
use cert_desk_listing::der::{InRange, ToDer};
use std::alloc::Global;
use x509_cert_builders::{
    Builder, BuilderProfile, CertificateBuilder, CertificateType, Root, Signer, Subordinate,
    Subscriber, Tls12Options,
};

/// A certificate and its encoding.
#[derive(Drop)]
pub(crate) struct Made {
    pub(crate) certificate: Certificate,
    pub(crate) octets: Vec<u8>,
}

/// Returns the profile of a root.
fn root(alloc: Global, accepted: &Accepted<'_>) -> Result<Root, Stop>
    requires ready { IsReady Role.Root (accepted_plain accepted.now) }
    ensures profile { IfOk result
        (IsProfile ⟦<Root as BuilderProfile>⟧.subject_name ⟦<Root as BuilderProfile>⟧.issuer_name
        ⟦<Root as BuilderProfile>⟧.extensions ⟦<Root as BuilderProfile>⟧.refuses Role.Root
        (accepted_plain accepted.now) (accepted_plain accepted.now)) }
    ensures stops { IfErr result (λ s. s ≡ Stop.OutOfMemory) }
{
    let subject = accepted.subject.clone(alloc)?;
    let profile = Root::new(alloc, accepted.order.ocsp, subject)?;
    Ok(profile)
}

/// Returns the profile of a CA below another one.
fn subordinate(
    alloc: Global,
    accepted: &Accepted<'_>,
    issuer: &Accepted<'_>,
) -> Result<Subordinate, Stop>
    ensures profile { IfOk result
        (IsProfile ⟦<Subordinate as BuilderProfile>⟧.subject_name
        ⟦<Subordinate as BuilderProfile>⟧.issuer_name ⟦<Subordinate as BuilderProfile>⟧.extensions
        ⟦<Subordinate as BuilderProfile>⟧.refuses Role.Subordinate (accepted_plain accepted.now)
        (accepted_plain issuer.now)) }
    ensures stops { IfErr result (λ s. s ≡ Stop.OutOfMemory) }
{
    Ok(Subordinate {
        issuer: issuer.subject.clone(alloc)?,
        subject: accepted.subject.clone(alloc)?,
        path_len_constraint: accepted.order.path_len,
        emits_ocsp_response: accepted.order.ocsp,
        client_auth: accepted.order.client_auth,
    })
}

/// Returns the profile of a subscriber.
fn subscriber(
    alloc: Global,
    accepted: &Accepted<'_>,
    issuer: &Accepted<'_>,
) -> Result<Subscriber, Stop>
    requires ready { IsReady Role.Subscriber (accepted_plain accepted.now) }
    ensures profile { IfOk result
        (IsProfile ⟦<Subscriber as BuilderProfile>⟧.subject_name
        ⟦<Subscriber as BuilderProfile>⟧.issuer_name ⟦<Subscriber as BuilderProfile>⟧.extensions
        ⟦<Subscriber as BuilderProfile>⟧.refuses Role.Subscriber (accepted_plain accepted.now)
        (accepted_plain issuer.now)) }
    ensures stops { IfErr result (λ s. s ≡ Stop.OutOfMemory) }
{
    let subject = accepted.subject.clone(alloc)?;
    Ok(Subscriber {
        certificate_type: CertificateType::domain_validated(alloc, subject, Vec::new(alloc))?,
        issuer: issuer.subject.clone(alloc)?,
        client_auth: accepted.order.client_auth,
        tls12_options: Tls12Options {
            enable_key_encipherment: false,
            enable_key_agreement: false,
        },
        enable_data_encipherment: false,
    })
}

/// Returns a builder for the certificate that an order asks for, with a profile that has the
/// order's subject.
fn builder_of<P: BuilderProfile + Drop>(
    alloc: Global,
    profile: P,
    accepted: &Accepted<'_>,
) -> Result<CertificateBuilder<P>, Stop>
    requires subject { P.subject_name profile ≡ Ok (name_plain accepted.now.subject) }
    requires willing { (e : Error) → P.refuses profile e → ⊥ }
    ensures made { IfOk result (λ b. b ≡ record {
      profile = profile;
      fields = fields_below (P.issuer_name profile (name_plain accepted.now.subject))
          (accepted_plain accepted.now);
      added = [];
      finalized = None;
    }) }
    ensures stops { IfErr result (λ s. s ≡ Stop.OutOfMemory) }
{
    let serial_number = accepted.serial_number.clone(alloc)?;
    let key = accepted.order.key.clone(alloc)?;
    let builder = CertificateBuilder::new(alloc, profile, serial_number, accepted.validity, key)?;
    Ok(builder)
}

/// Builds and signs a certificate, and returns it with its encoding.
fn made_by<P: BuilderProfile + Drop, S: Signer>(
    alloc: Global,
    builder: CertificateBuilder<P>,
    signer: &S,
) -> Result<Made, Stop>
    requires willing { (e : Error) → P.refuses builder.profile e → ⊥ }
    requires serial { length (integer_octets builder.fields.serial) ≤ 20 }
    ensures { (role : Role) (dns : List (List ℕ)) (t : Tbs)
        → part_for P.extensions builder (S.public_key signer.now) (S.signs_by signer.now) ≡ t
        → Makes (S.may_refuse signer.now) (S.signs signer.now) (S.signs_by signer.now) role dns t
        result }
{
    let certificate = builder.build(alloc, signer)?;
    certificate.signature_algorithm().in_range();
    certificate.signature().in_range();
    let octets = certificate.to_der(alloc)?;
    Ok(Made {
        certificate,
        octets,
    })
}

/// Builds and signs the certificate that an order asks for in a role, below another certificate,
/// with a profile of that role.
fn made_with<P: BuilderProfile + Drop, S: Signer>(
    alloc: Global,
    role: Role,
    profile: P,
    accepted: &Accepted<'_>,
    issuer: &Accepted<'_>,
    signer: &S,
) -> Result<Made, Stop>
    requires ready { IsReady role (accepted_plain accepted.now) }
    requires profile { IsProfile P.subject_name P.issuer_name P.extensions P.refuses role
        (accepted_plain accepted.now) (accepted_plain issuer.now) profile }
    requires key { S.public_key signer.now ≡ key_plain issuer.now.order.now.key }
    ensures { Makes (S.may_refuse signer.now) (S.signs signer.now) (S.signs_by signer.now) role
        (plain_list string_bytes accepted.now.order.now.dns.items)
        (ordered_part role (accepted_plain accepted.now) (accepted_plain issuer.now)
        (S.signs_by signer.now)) result }
{
    let mut builder = builder_of(alloc, profile, accepted)?;
    add_names(alloc, role, accepted, &mut builder)?;
    made_by(alloc, builder, signer)
}

/// Builds and signs the certificate that an order asks for in a role, below another certificate.
pub(crate) fn certificate_for<S: Signer>(
    alloc: Global,
    role: Role,
    accepted: &Accepted<'_>,
    issuer: &Accepted<'_>,
    signer: &S,
) -> Result<Made, Stop>
    requires ready { IsReady role (accepted_plain accepted.now) }
    requires own { role ≡ Role.Root → accepted_plain issuer.now ≡ accepted_plain accepted.now }
    requires key { S.public_key signer.now ≡ key_plain issuer.now.order.now.key }
    ensures { Makes (S.may_refuse signer.now) (S.signs signer.now) (S.signs_by signer.now) role
        (plain_list string_bytes accepted.now.order.now.dns.items)
        (ordered_part role (accepted_plain accepted.now) (accepted_plain issuer.now)
        (S.signs_by signer.now)) result }
{
    match role {
        Role::Root => {
            let profile = root(alloc, accepted)?;
            made_with(alloc, role, profile, accepted, issuer, signer)
        }
        Role::Subordinate => {
            let profile = subordinate(alloc, accepted, issuer)?;
            made_with(alloc, role, profile, accepted, issuer, signer)
        }
        Role::Subscriber => {
            let profile = subscriber(alloc, accepted, issuer)?;
            made_with(alloc, role, profile, accepted, issuer, signer)
        }
    }
}

//! Issues the certificates that orders ask for, with signatures that are made elsewhere.
ghost use Rattle.std.specs.Prelude.{◌≡◌, ◌≢◌, ◌≤◌, ◌<◌, ◌⊎◌, [], length, take, None, IfErr};
ghost use Rattle.std.specs.Prelude.{IfOk, OnOk};
ghost use Rattle.cert_desk_orders.specs.Oid.Bound.{Bound};
ghost use Rattle.cert_desk_orders.specs.Der.Limits.{length_max};
ghost use Rattle.cert_desk_orders.specs.Der.Shapes.{Spells};
ghost use Rattle.cert_desk_orders.specs.CertParts.Grammar.{algorithm_identifier};
ghost use Rattle.cert_desk_orders.specs.CertParts.Views.{algorithm_plain};
ghost use Rattle.cert_desk_checking.specs.DeskIo.declared.exit_status.ExitStatus.TheVariants as statuses;
ghost use Rattle.cert_desk_checking.specs.DeskIo.Statuses.{code_of};
ghost use Rattle.cert_desk_checking.specs.DeskRules.Rooms.{ChangesFront, IsUnsized, Wants};
ghost use Rattle.cert_desk.specs.Roles.{signers_for};
ghost use Rattle.cert_desk_orders.specs.OrdersFile.{SaysOrders, faulty_line};
ghost use Rattle.cert_desk_issuing_c.specs.Signing.{AreFaulty, AreOrdered, AreRefused, AreSigners};
ghost use Rattle.cert_desk_issuing_c.specs.Signing.{HoldEach, IsBeyond, IsFault, IsIssued};
ghost use Rattle.cert_desk_issuing_c.specs.Signing.{IsNoAlgorithm, IsRefusal, IsRefusalAt};
ghost use Rattle.cert_desk_issuing_c.specs.Signing.{IsSignedPart, RefusesEach, all_bits};

use crate::given_signer::GivenSigner;
use crate::reasons::status_of;
use cert_desk::{IssueError, Issued, issue};
use cert_desk_checking::desk_io::ExitStatus;
use cert_desk_checking::desk_rules::{code, give};
use cert_desk_orders::cert_parts::AlgorithmIdentifier;
use cert_desk_orders::der::making::is_out_of_memory;
use cert_desk_orders::der::{FromDer, ToDer};
use cert_desk_orders::types::BitString;
use cert_desk_orders::{Order, OrdersError, orders_in};
use std::alloc::{AllocError, Global};
use x509_cert_builders::cert_certificates::Certificate;

/// Parses an orders file, or returns the status.
pub(crate) fn orders_of(alloc: Global, octets: &[u8]) -> Result<Vec<Order>, ExitStatus>
    ensures said { IfOk result (λ orders. SaysOrders octets.now orders.items) }
    ensures refused { IfErr result (IsFault (faulty_line octets.now ≢ None)) }
{
    match orders_in(alloc, octets) {
        Ok(orders) => Ok(orders),
        Err(OrdersError::Line(_)) => Err(ExitStatus::Arguments),
        Err(OrdersError::OutOfMemory) => Err(ExitStatus::Memory),
    }
}

/// Decodes an algorithm, or returns the status.
pub(crate) fn algorithm_of(alloc: Global, octets: &[u8]) -> Result<AlgorithmIdentifier, ExitStatus>
    ensures spelled { IfOk result
        (λ a. Spells (algorithm_identifier Bound) (algorithm_plain a) octets.now) }
    ensures refused { IfErr result (IsFault (IsNoAlgorithm octets.now)) }
{
    match AlgorithmIdentifier::from_der(alloc, octets) {
        Ok(algorithm) => Ok(algorithm),
        Err(error) => {
            if is_out_of_memory(&error) {
                return Err(ExitStatus::Memory);
            }
            Err(ExitStatus::Arguments)
        }
    }
}

/// Returns all bits of the bytes, or the status.
pub(crate) fn bits_of(alloc: Global, octets: &[u8]) -> Result<BitString, ExitStatus>
    ensures bits { IfOk result (λ bits. bits ≡ all_bits octets.now) }
    ensures short { OnOk result (length octets.now ≤ length_max) }
    ensures refused { IfErr result (IsFault (length_max < length octets.now)) }
{
    let Ok(octets) = octets.to_vec(alloc) else {
        return Err(ExitStatus::Memory);
    };
    match BitString::from_bytes(octets) {
        Ok(bits) => Ok(bits),
        Err(_) => Err(ExitStatus::Arguments),
    }
}

// Returns the orders whose keys sign: a single order, or all but the last.
fn signing(orders: &[Order]) -> &[Order]
    ensures { result.now ≡ take (signers_for (length orders.now)) orders.now }
{
    if orders.len() < 2 {
        return orders;
    }
    &orders[..orders.len() - 1]
}

// Returns a signer with this algorithm and this signature for each order whose key signs.
fn signers_of<'a>(
    alloc: Global,
    orders: &'a [Order],
    algorithm: &'a AlgorithmIdentifier,
    signature: &'a BitString,
) -> Result<Vec<GivenSigner<'a>>, AllocError>
    ensures { IfOk result (λ signers. AreSigners orders.now (algorithm_plain algorithm.now)
        signature.now signers.items) }
{
    let signing = signing(orders);
    let mut signers = Vec::new(alloc);
    for order in signing {
        signers.push(GivenSigner {
            key: &order.key,
            algorithm,
            signature,
        })?;
    }
    Ok(signers)
}

/// Issues the chain that orders ask for, with this algorithm and this signature, or returns why
/// there is none.
pub(crate) fn issued_of(
    alloc: Global,
    orders: &[Order],
    algorithm: &AlgorithmIdentifier,
    signature: &BitString,
) -> Result<Issued, IssueError>
    ensures issued { IfOk result (λ i. HoldEach orders.now (algorithm_plain algorithm.now)
        signature.now i.certificates) }
    ensures refused { IfErr result (λ error. (error ≡ IssueError.OutOfMemory)
        ⊎ RefusesEach orders.now (algorithm_plain algorithm.now) signature.now error) }
{
    let Ok(signers) = signers_of(alloc, orders, algorithm, signature) else {
        return Err(IssueError::OutOfMemory);
    };
    match issue(alloc, orders, signers.as_slice()) {
        Ok(issued) => {
            // Shows that the certificates are those of the chain's bytes.
            issued.stream();
            Ok(issued)
        }
        Err(error) => Err(error),
    }
}

// Issues the chain that an orders file asks for, with an algorithm and these bytes as each
// signature, or returns the status.
fn chain_of(
    alloc: Global,
    orders: &[u8],
    algorithm: &[u8],
    signature: &[u8],
) -> Result<Issued, ExitStatus>
    ensures issued { IfOk result
        (λ i. AreOrdered orders.now algorithm.now signature.now i.certificates) }
    ensures refused { IfErr result (IsRefusal orders.now algorithm.now signature.now) }
{
    let said = orders_of(alloc, orders)?;
    let by = algorithm_of(alloc, algorithm)?;
    let bits = bits_of(alloc, signature)?;
    match issued_of(alloc, said.as_slice(), &by, &bits) {
        Ok(issued) => Ok(issued),
        Err(error) => Err(status_of(&error)),
    }
}

// Returns the encoding of the certificate at an index of an issued chain, or the status.
fn certificate_at(
    alloc: Global,
    orders: &[u8],
    place: usize,
    algorithm: &[u8],
    signature: &[u8],
) -> Result<Vec<u8>, ExitStatus>
    ensures made { IfOk result
        (λ octets. IsIssued orders.now place algorithm.now signature.now octets.items) }
    ensures refused { IfErr result
        (IsRefusalAt orders.now place algorithm.now signature.now) }
{
    let issued = chain_of(alloc, orders, algorithm, signature)?;
    let certificates: &[Certificate] = issued.certificates();
    if place >= certificates.len() {
        return Err(ExitStatus::Empty);
    }
    match certificates[place].to_der(alloc) {
        Ok(octets) => Ok(octets),
        Err(_) => Err(ExitStatus::Memory),
    }
}

// Returns the encoding of the TBSCertificate at an index of an issued chain, or the status.
fn signed_part_at(
    alloc: Global,
    orders: &[u8],
    place: usize,
    algorithm: &[u8],
) -> Result<Vec<u8>, ExitStatus>
    ensures made { IfOk result
        (λ octets. IsSignedPart orders.now place algorithm.now octets.items) }
    ensures refused { IfErr result (IsRefusalAt orders.now place algorithm.now []) }
{
    let issued = chain_of(alloc, orders, algorithm, &[])?;
    let certificates: &[Certificate] = issued.certificates();
    if place >= certificates.len() {
        return Err(ExitStatus::Empty);
    }
    match certificates[place].tbs_certificate().to_der(alloc) {
        Ok(octets) => Ok(octets),
        Err(_) => Err(ExitStatus::Memory),
    }
}

/// Writes the TBSCertificate at an index of the chain that an orders file asks for to `out`. The
/// root has index 0. The key of the certificate above signs it by this algorithm (an
/// AlgorithmIdentifier), and the root's own key signs the root. Returns 0, 1 if the orders are
/// rejected, 3 if the chain has no such index, 4 if the orders file or the algorithm is wrong, 5 if
/// the buffer is too small, or 6 if an allocation fails.
#[unsafe(no_mangle)]
pub extern "C" fn wd_signed_part(
    alloc: Global,
    orders: &[u8],
    place: u32,
    algorithm: &[u8],
    out: &mut [u8],
    size: &mut usize,
) -> u32
    ensures done { result ≡ code_of statuses.Done
        → IsSignedPart orders.now place algorithm.now (take size.new out.new) }
    ensures no_room { result ≡ code_of statuses.Device
        → Wants (IsSignedPart orders.now place algorithm.now) out.old size.new }
    ensures refused { result ≡ code_of statuses.Refused
        → AreRefused orders.now algorithm.now [] }
    ensures absent { result ≡ code_of statuses.Empty → IsBeyond orders.now place algorithm.now [] }
    ensures faulty { result ≡ code_of statuses.Arguments
        → AreFaulty orders.now algorithm.now [] }
    ensures known { (status : ExitStatus) × (result ≡ code_of status) × (status ≢ statuses.Faulty) }
    ensures front { result ≡ code_of statuses.Done → ChangesFront size.new out.old out.new }
    ensures untouched { result ≢ code_of statuses.Done → out.new ≡ out.old }
    ensures no_size { IsUnsized result size.new }
{
    *size = 0;
    match signed_part_at(alloc, orders, place as usize, algorithm) {
        Ok(octets) => give(octets.as_slice(), out, size),
        Err(status) => code(status),
    }
}

/// Writes the certificate at an index of that chain to `out`, with this signature, which isn't
/// verified. The statuses are those of `wd_signed_part`, and 4 also if the signature is too long.
#[unsafe(no_mangle)]
pub extern "C" fn wd_issue(
    alloc: Global,
    orders: &[u8],
    place: u32,
    algorithm: &[u8],
    signature: &[u8],
    out: &mut [u8],
    size: &mut usize,
) -> u32
    ensures done { result ≡ code_of statuses.Done
        → IsIssued orders.now place algorithm.now signature.now (take size.new out.new) }
    ensures no_room { result ≡ code_of statuses.Device
        → Wants (IsIssued orders.now place algorithm.now signature.now) out.old size.new }
    ensures refused { result ≡ code_of statuses.Refused
        → AreRefused orders.now algorithm.now signature.now }
    ensures absent { result ≡ code_of statuses.Empty
        → IsBeyond orders.now place algorithm.now signature.now }
    ensures faulty { result ≡ code_of statuses.Arguments
        → AreFaulty orders.now algorithm.now signature.now }
    ensures known { (status : ExitStatus) × (result ≡ code_of status) × (status ≢ statuses.Faulty) }
    ensures front { result ≡ code_of statuses.Done → ChangesFront size.new out.old out.new }
    ensures untouched { result ≢ code_of statuses.Done → out.new ≡ out.old }
    ensures no_size { IsUnsized result size.new }
{
    *size = 0;
    match certificate_at(alloc, orders, place as usize, algorithm, signature) {
        Ok(octets) => give(octets.as_slice(), out, size),
        Err(status) => code(status),
    }
}

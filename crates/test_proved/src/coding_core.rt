//! Tests of OIDs and of the coding core: capacities, types that have an OID, and comparisons of
//! iterators.

mod coding;
mod constants;
mod held;
mod identifiers;
mod kinds;
mod sets;

//! Laws about texts with PEM blocks. Each law is the contract of a function that does nothing.
ghost use Rattle.cert_tool_pem.specs.Grammar.{BlocksAreRead};

/// `octets_in` decodes exactly the texts that the grammar of RFC 7468 3 allows, to the values that
/// the grammar gives them.
pub fn blocks_are_read()
    ensures { BlocksAreRead }
{}

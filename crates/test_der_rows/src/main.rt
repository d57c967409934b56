//! Answers questions about bytes. Each line of standard input is a question, and each line of
//! standard output is its answer.
//!
//! | Question | Answer |
//! |---|---|
//! | `der TYPE HEX` | `ok HEX`: the encoding of the value that the bytes encode by DER |
//! | `ber TYPE HEX` | the same, for bytes by BER |
//! | `front TYPE HEX` | `ok HEX HEX`: the encoding of the value with which the bytes begin, and the bytes after it |
//! | `twice TYPE HEX` | `ok ANSWER; ANSWER`: the encodings of the values that two calls of one reader return, or their errors |
//! | `order TYPE HEX HEX` | `ok Less`, `ok Equal` or `ok Greater`: the order of two encodings |
//! | `contents TYPE HEX HEX` | the order of two contents, whatever their lengths |
//! | `compare TYPE HEX HEX` | the order of two values by their type's `Ord`, and `same` if their hashes are equal, or `apart` |
//! | `text TYPE HEX` | `ok TEXT`: the text that the value prints. For a bit string these are its bits, for named bits their names, and for a time its date |
//! | `new TYPE HEX` | `ok HEX`: the encoding of the value that the type makes of the bytes. For `Vec<u8>` it is that of the OCTET STRING of the bytes that an OCTET STRING returns |
//! | `from TYPE TEXT` | the same for the value that the type makes of a text, of names, or of seconds since 1970 |
//! | `date TEXT` | `ok SECONDS`: the seconds from 1970 to a date |
//! | `seconds SECONDS` | `ok TEXT`: the date that many seconds after 1970 |
//! | `set-loose TYPE HEX`, `set-strict TYPE HEX` | the encoding of the SET OF whose members are in any order, or in ascending order. `set-strict-ber` decodes by BER |
//! | `set-insert TYPE HEX`, `set-append TYPE HEX`, `set-from TYPE HEX` | the encoding of the set of the members of a SEQUENCE OF. They are inserted or appended one at a time, or added all at once |
//! | `again insert HEX`, `again append HEX`, `again extend HEX` | the encoding of the set of these numbers. Each is inserted, each is appended, or all are added at once. If memory runs out in a call, the set has to be as before, or extended by the reported number of members, and the call is repeated. Otherwise the answer is `changed` |
//! | `copy TYPE HEX` | `ok HEX..`: the encodings of the copies of the value that the bytes encode by DER, one for each call that copies it: the type's own call, and that of `Clone`. For a set also that of its members, and for a field that of a borrow of it. `BytesOwned` and `StringOwned` have no tag |
//! | `member NUMBER HEX` | `ok HEX`: the encoding of the number at this index, from 0, of a borrowed set of numbers, or `ok none` |
//! | `leaf TYPE HEX` | `ok HEX`: the encoding of the value that the bytes encode by DER, decoded as one without other values in it |
//! | `set-into TYPE HEX` | the encoding of the list that a set is converted to |
//! | `oid TEXT`, `oid-arcs ARC..` | `ok HEX`: the content bytes of the OID |
//! | `oid-octets HEX` | `ok TEXT`: the OID with these content bytes. `oid-ref HEX` is the `Debug` output of the borrowed one |
//! | `oid-parent TEXT`, `oid-child TEXT ARC` | `ok TEXT`: the OID with one arc less or more, or `ok none` if there is no parent |
//! | `oid-counted TEXT NUMBER` | `ok TEXT NUMBER BOOL`: the parent, the number of its arcs, and whether at most that many bytes were tested for it |
//! | `oid-arc TEXT PLACE`, `oid-len TEXT` | `ok NUMBER`: the arc at an index, or the number of arcs. `ok none` if there is no such arc |
//! | `oid-starts TEXT TEXT` | `ok true` if the first OID starts with the second, or `ok false` |
//! | `oid-order TEXT TEXT`, `oid-ref-order HEX HEX` | the order of two OIDs, owned or borrowed |
//! | `oid-name TEXT`, `oid-names TEXT`, `oid-named NAME`, `oid-resolved TEXT` | the answer of a database with three names |
//! | `header HEX`, `header-ber HEX` | `ok NUMBER LENGTH HEX NAME`: the number of bytes of the header with which the bytes begin, its length, its encoding, and the name of its tag |
//! | `scan HEX` | `ok ANSWER; ANSWER..`: the result of scanning each prefix of the bytes, from none to all. It is `NUMBER LENGTH NAME` for a complete header, `none` for an incomplete one, or the error |
//! | `lone-tag HEX` | `ok NUMBER HEX NAME`: the number of bytes of the tag with which the bytes begin, its encoding, and its name |
//! | `lone-length HEX` | `ok NUMBER LENGTH HEX`: the number of bytes of the length with which the bytes begin, without a tag, that length, and its encoding |
//! | `header-written HEX LENGTH` | `ok HEX`: the encoding of the header for that many bytes of content, with the tag with which the bytes begin |
//! | `length-written LENGTH` | `ok HEX`: the encoding of a length, without a tag |
//! | `tag HEX` | `ok CLASS NUMBER FORM NAME` of the tag with which the bytes begin |
//! | `tag-expected HEX HEX` | `ok NAME` if the bytes begin with the same tag |
//! | `tag-errors HEX` | `ok KIND; KIND; KIND; KIND`: the errors of a wrong length, form and value of the tag, and of another tag |
//! | `tags NUMBER` | `ok NAME BOOL; NAME BOOL; NAME BOOL`: the tags with that number in three classes, and whether they are in these classes |
//! | `class HEX` | `ok NAME HEX`: the class of a tag with that first byte, and its bits |
//! | `mode NAME`, `rules NAME` | `ok NAME true` for the default tagging mode or encoding rules, and `ok NAME false` for others |
//! | `tag-order HEX HEX`, `header-order HEX HEX`, `length-order LENGTH LENGTH` | the order of the bytes of two tags, headers or lengths |
//! | `tlv HEX LENGTH` | `ok LENGTH`: the length of an encoding with the tag with which the bytes begin, and that many bytes of content |
//! | `sum LENGTH NUMBER`, `difference LENGTH NUMBER` | `ok LENGTH`. With `saturating-` before the word, the nearest length |
//! | `content TYPE HEX HEX` | `ok HEX ORDER HEX`: two contents without a tag, decoded and encoded, and their order |
//! | `by-ord TYPE HEX HEX` | `ok ORDER ORDER ORDER`: the order of two contents by `Ord`, with both calls, and the order of their encodings |
//! | `prefix HEX NUMBER` | `ok HEX`: the first bytes of owned bytes |
//! | `reader HEX STEP..` | `ok ANSWER; ANSWER..`: the results of the calls of a reader |
//! | `writer NUMBER STEP..` | the same for a writer with that many bytes of capacity, then the bytes that it wrote, and then the content of its buffer |
//! | `slice NUMBER HEX`, `slice-value NUMBER HEX` | `ok HEX HEX`: the encoding of a number, or of its content, in a slice of that many bytes, and then the content of the slice |
//! | `vector HEX HEX` | `ok HEX NUMBER NAME LENGTH`: bytes with a number appended, the length of its encoding, and its header |
//! | `why QUESTION` | `ok TEXT`: the text of the kind of error with which the question fails |
//! | `place QUESTION` | `ok PLACE`: the index, from 0, of the input byte at which the error of the question was found, or `ok none` if it isn't known |
//! | `explicit TYPE NUMBER HEX`, `implicit TYPE NUMBER HEX` | `ok HEX, COUNT left`: the encoding of the field with this tag number with which the bytes begin, explicit or implicit, and the number of bytes after it. `absent` if they begin with another tag |
//! | `explicit TYPE NUMBER HEX HEX`, `implicit TYPE NUMBER HEX HEX` | the order of two such fields, and then the order of their contents |
//! | `any-as TYPE HEX`, `any-as-ber TYPE HEX` | the encoding of the value that a value of any type is decoded as, by DER or BER |
//! | `any-into TYPE HEX`, `any-ref-into TYPE HEX` | the same for the value that a value of any type is converted to, owned or borrowed |
//! | `any-from TYPE HEX`, `any-ref-from TYPE HEX` | the encoding of the value of any type that a value is converted to, owned or borrowed |
//! | an empty line, or one that begins with `#` | the same line |
//! | any other line, also one with an unknown type | `?` |
//!
//! The answer is `refused KIND` if the question fails with an error, and `memory` if memory runs
//! out.
#![tactic(auto)]

mod again;
mod answers;
mod any_values;
mod contents;
mod copies;
mod entry;
mod fields;
mod headers;
mod key_usages;
mod kinds;
mod leaves;
mod lists;
mod made;
mod nested;
mod object_identifiers;
mod questions;
mod readers;
mod record;
mod refusals;
mod shown;
mod small;
mod ten_fields;
mod texts;
mod times;
mod writers;

use answers::answer;
use std::io;
use std::io::{BufWriter, Write};

fn main(rt: HostRuntime) -> io::Result<()> {
    let alloc = rt.alloc();
    let mut out = BufWriter::new(alloc, io::writer(&rt))?;
    for line in rt.lines(alloc) {
        answer(alloc, line?.as_str(), &mut out)?;
    }
    out.flush()
}

//! The label and the metadata header of an LVM2 physical volume, as LVM2 stores them on disk
//! (lvm2: lib/format_text/layout.h and lib/label/label.h).
//!
//! The label stands in one of the first four sectors and names the volume's data and metadata
//! areas; the header stands at the start of a metadata area and says where in it the group's text
//! lies. Reading is a function of the bytes, [`decode_label`] and [`decode_header`] give exactly
//! that, with the fault that comes first; what [`encode_label`] and [`encode_header`] write is read
//! back ([`encoded_labels_decode`], [`encoded_headers_decode`]).
#![tactic(auto)]

mod fields;
mod header;
mod label;

pub use header::{Header, Location, decode_header, encode_header, encoded_headers_decode};
pub use label::{Area, Label, decode_label, encode_label, encoded_labels_decode};

/// Why a label or a header can't be read.
#[derive(Clone, Copy, Debug, PartialEq, Eq)]
pub enum LabelFault {
    /// No sector begins with the label's word.
    NoLabel,
    /// The stored CRC isn't that of the bytes.
    BadCrc,
    /// A fixed field has another value, or a list has too many entries or no end.
    BadHeader,
}

//! Attaches the names of the words.

ghost use Rattle.std.specs.Prelude.{◌≡◌, ◌≢◌, ◌≤◌, IfOk, IfErr, map, string_bytes};
ghost use Rattle.shr_tool.specs.Outcome.{HasStatusCause};
ghost use Rattle.shr_tool.specs.Attaching.{AreAttached, IsUnattached};
ghost use Rattle.shr_tool.specs.Run.{SaysFault};

use crate::saying::{refuse, say};
use crate::status::Status;
use io_ends::Sink;
use rack::{AttachFault, Bay, Rack};
use shr_script::{ReplyText, refused_number_reply};

/// A name that couldn't be attached.
#[derive(Clone, Copy, Debug, PartialEq, Eq)]
pub struct Unattached {
    /// Its number among the names.
    pub number: u32,
    /// Why.
    pub fault: AttachFault,
}

/// Attaches names in their order, up to the first that can't be.
pub fn attach_all<B: Bay>(bay: &mut B, names: &[String]) -> Result<(), Unattached>
    requires { (B.seen bay.old).disks ≡ 0 }
    ensures attached { IfOk result (λ done. AreAttached (B.seen bay.old) (B.seen bay.new) (B.shelf bay.old) (B.shelf bay.new) (map string_bytes names.now)) }
    ensures unattached { IfErr result (λ at. IsUnattached (B.seen bay.old) (B.seen bay.new) (B.shelf bay.old) (B.shelf bay.new) (map string_bytes names.now) at.number at.fault) }
{
    for name in names {
        let number = bay.disks();
        match bay.attach(name.as_str()) {
            Ok(_) => {}
            Err(fault) => return Err(Unattached { number, fault }),
        }
    }
    Ok(())
}

/// Says why a name couldn't be attached.
pub fn refuse_name<O: Sink>(out: &mut O, at: Unattached) -> Status
    ensures sink { O.faults out.old ≤ O.faults out.new }
    ensures cause { HasStatusCause result 0 0 (O.faults out.old) (O.faults out.new) }
    ensures other { result ≢ Status.Limit }
    ensures says { O.told out.old → SaysFault at.fault at.number (O.taken out.old) (O.taken out.new) result }
{
    match at.fault {
        AttachFault::Failed => {
            let mut text = ReplyText::new();
            refused_number_reply(&mut text, b"attach", u64::from(at.number));
            say(out, &text, Status::Refused)
        }
        AttachFault::Twice { .. } => refuse(out, b"twice", Status::Refused),
        AttachFault::Memory => refuse(out, b"memory", Status::Memory),
    }
}

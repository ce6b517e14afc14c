//! The calls that a bay keeps.

ghost use Rattle.std.specs.Prelude.{◌≡◌};
ghost use Rattle.rack.specs.Values.{Values};

/// What a kept call did.
#[derive(Clone, Copy)]
pub enum Call {
    /// A read, or a call that failed.
    Quiet,
    /// A write of a value to a sector of an attached disk.
    Write {
        disk: u32,
        sector: u64,
        value: [u8; 512],
    },
    /// A sync of an attached disk.
    Sync {
        disk: u32,
    },
}

/// What a call does to the values of one sector.
#[derive(Clone, Copy)]
pub enum Effect {
    /// Nothing.
    Stay,
    /// It appends a value.
    Append { value: [u8; 512] },
    /// It leaves the last one alone.
    Settle,
}

impl Call {
    ghost use Rattle.rack_mem.specs.History.{value_of, after_call, after_effect};

    /// What it does to the values of a sector.
    pub fn effect(self, disk: u32, sector: u64) -> Effect
        ensures { (v : Values) → after_call self disk sector v ≡ after_effect result v }
    {
        match self {
            Call::Write {
                disk: written,
                sector: at,
                value,
            } if written == disk && at == sector => Effect::Append { value },
            Call::Sync { disk: synced } if synced == disk => Effect::Settle,
            _ => Effect::Stay,
        }
    }

    /// The value that it writes.
    pub fn value(self) -> Option<[u8; 512]>
        ensures { result ≡ value_of self }
    {
        match self {
            Call::Write { value, .. } => Some(value),
            _ => None,
        }
    }
}

//! Where bytes come from and where they go: a source and a sink that count what failed.
//!
//! What a device holds, and whether it tells, is its own affair: a caller knows the clauses here.
ghost use Rattle.std.specs.Prelude.{◌≡◌, ◌≤◌, ◌<◌, ◌+◌, ◌-◌, ◌^◌, List, [], ℕ, Option, IfOk, IfSome, OnErr, OnOk, length, take};
ghost use Rattle.idl_source.specs.devices.Device.{prepend, append, WritesPart};

use thiserror::Error;

/// Where bytes come from.
///
/// A read that failed took no byte, and may be tried again.
pub trait Source {
    /// The bytes still to come, where the source tells.
    ghost remaining: { Self → Option (List ℕ) };
    /// How many reads may still give bytes.
    ghost reads_left: { Self → ℕ };
    /// How many reads failed.
    ghost failures: { Self → ℕ };

    /// How many reads failed. Below `u64::MAX` a further read is allowed.
    fn failures(&self) -> u64
        ensures { result ≡ failures self.now };

    /// Reads into the front of a buffer that isn't empty. 0 says that the end has come.
    ///
    /// What the buffer holds past the bytes read, or after a failed read, is left open.
    fn read(&mut self, buffer: &mut [u8]) -> Result<usize, ReadFailed>
        requires room { 0 < length buffer.old }
        requires counts { failures self.old < 2 ^ 64 - 1 }

        ensures count { IfOk result (λ n. n ≤ length buffer.old) }
        ensures given { IfOk result (λ n.
            remaining self.old ≡ prepend (take n buffer.new) (remaining self.new)) }
        ensures end { IfOk result (λ n. n ≡ 0 → IfSome (remaining self.old) (λ bytes. bytes ≡ [])) }
        ensures ok { OnOk result (failures self.new ≡ failures self.old) }

        ensures err { OnErr result (failures self.new ≡ failures self.old + 1) }
        ensures kept { OnErr result (remaining self.new ≡ remaining self.old) }

        // Reads that give bytes are bounded, and nothing raises the bound.
        ensures falls { IfOk result (λ n. 0 < n → reads_left self.new < reads_left self.old) }
        ensures bounded { reads_left self.new ≤ reads_left self.old };
}

/// Where bytes go.
///
/// A write that failed took no byte, and may be tried again.
pub trait Sink {
    /// The bytes that went out, where the sink tells.
    ghost written: { Self → Option (List ℕ) };
    /// How many writes failed.
    ghost failures: { Self → ℕ };

    /// How many writes failed. Below `u64::MAX` a further write is allowed.
    fn failures(&self) -> u64
        ensures { result ≡ failures self.now };

    /// Writes a part of a slice that isn't empty, from its front: one byte at least.
    fn write(&mut self, bytes: &[u8]) -> Result<usize, WriteFailed>
        requires some { 0 < length bytes.now }
        requires counts { failures self.old < 2 ^ 64 - 1 }

        ensures count { IfOk result (λ n. (0 < n) × (n ≤ length bytes.now)) }
        ensures taken { IfOk result (λ n.
            written self.new ≡ append (written self.old) (take n bytes.now)) }
        ensures ok { OnOk result (failures self.new ≡ failures self.old) }

        ensures err { OnErr result (failures self.new ≡ failures self.old + 1) }
        ensures kept { OnErr result (written self.new ≡ written self.old) };
}

/// A read failed, and the source counted it.
#[derive(Clone, Copy, Debug, Error)]
#[error("read failed")]
pub struct ReadFailed;

/// A write failed, and the sink counted it.
#[derive(Clone, Copy, Debug, Error)]
#[error("write failed")]
pub struct WriteFailed;

/// Writes all of these bytes, or a beginning of them and then one write that failed.
pub fn write_all<K: Sink>(sink: &mut K, bytes: &[u8]) -> Result<(), WriteFailed>
    requires counts { K.failures sink.old < 2 ^ 64 - 1 }

    ensures written { OnOk result (K.written sink.new ≡ append (K.written sink.old) bytes.now) }
    ensures ok { OnOk result (K.failures sink.new ≡ K.failures sink.old) }

    ensures part { OnErr result (WritesPart (K.written sink.old) bytes.now (K.written sink.new)) }
    ensures err { OnErr result (K.failures sink.new ≡ K.failures sink.old + 1) }
{
    let mut done = 0;
    while done < bytes.len() {
        done += sink.write(&bytes[done..])?;
    }
    Ok(())
}

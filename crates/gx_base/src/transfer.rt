//! A whole stream read, and a whole text written.
ghost use Rattle.std.specs.Prelude.{◌≡◌, ◌+◌, ◌-◌, ◌^◌, ◌<◌, ◌≤◌, [], true, false, Some, take, drop, length, IfOk, OnOk, IfErr, IfSome, IsErrOf};
ghost use Rattle.gx_base.specs.Stream.{before, NeverFell, CountRose, GaveWhole, GaveSome, Gave, Took};

use crate::sink::Sink;
use crate::source::Source;
use std::alloc::Global;

// The most bytes that one read asks for.
const PIECE: usize = 4096;

/// Why a stream was not read whole.
#[derive(Clone, Copy, Debug, PartialEq, Eq)]
pub enum ReadAllFault {
    /// A read failed.
    ReadFault,
    /// There are more bytes than there may be.
    TooLong,
    /// There was no memory for the bytes.
    NoMemory,
}

/// All that a source has left, if that is at most `max` bytes. It takes one byte more than `max`
/// before it answers `TooLong`, and never more. The first read that fails ends it.
pub fn read_all<S: Source>(alloc: Global, src: &mut S, max: usize) -> Result<Vec<u8>, ReadAllFault>
    requires { max < 2 ^ 64 - 1 }

    ensures never_falls { NeverFell (S.told src.old) (S.told src.new) }

    ensures given { IfOk result (λ bytes. GaveWhole bytes.items (S.told src.old) (S.told src.new)) }
    ensures within { IfOk result (λ bytes. length bytes.items ≤ max) }
    ensures too_long { IsErrOf result ReadAllFault.TooLong →
        GaveSome (λ count. count ≡ max + 1) (S.told src.old) (S.told src.new) }
    ensures read_fault { IsErrOf result ReadAllFault.ReadFault →
        GaveSome (λ count. count ≤ max) (S.told src.old) (S.told src.new) }
    ensures no_memory { IsErrOf result ReadAllFault.NoMemory →
        GaveSome (λ count. (0 < count) × (count ≤ max)) (S.told src.old) (S.told src.new) }
    ensures fault { IsErrOf result ReadAllFault.ReadFault →
        CountRose (S.told src.old) (S.told src.new) }

    // Where the source tells its bytes, these are all of them, and none are left.
    ensures whole { IfOk result (λ bytes. IfSome (S.told src.old).bytes (λ all.
        (bytes.items ≡ all) × ((S.told src.new).bytes ≡ Some []))) }

    // And here there are more than `max`.
    ensures more { IsErrOf result ReadAllFault.TooLong → IfSome (S.told src.old).bytes (λ all.
        (max < length all) × ((S.told src.new).bytes ≡ Some (drop (max + 1) all))) }
{
    let mut buf = [0; PIECE];
    let mut bytes = Vec::new(alloc);
    while read_piece(src, &mut buf, max, &mut bytes)? {}
    Ok(bytes)
}

// Takes one more piece of at most the buffer's length, and says whether there was one.
fn read_piece<S: Source>(
    src: &mut S,
    buf: &mut [u8],
    max: usize,
    bytes: &mut Vec<u8>,
) -> Result<bool, ReadAllFault>
    requires max { max < 2 ^ 64 - 1 }
    requires some_room { 0 < length buf.old }
    requires one_piece { length buf.old ≤ 4096 }
    requires within { length bytes.old.items ≤ max }

    ensures never_falls { NeverFell (S.told src.old) (S.told src.new) }

    ensures given { OnOk result
        (before bytes.old.items (S.told src.old).bytes ≡ before bytes.new.items (S.told src.new).bytes) }
    ensures within { OnOk result (length bytes.new.items ≤ max) }
    ensures longer { IfOk result (λ more.
        more ≡ true → length bytes.old.items < length bytes.new.items) }
    ensures ended { IfOk result (λ more.
        more ≡ false → IfSome (S.told src.new).bytes (λ rest. rest ≡ [])) }

    ensures too_long { IsErrOf result ReadAllFault.TooLong → Gave (λ count. count ≡ max + 1)
        (before bytes.old.items (S.told src.old).bytes) (S.told src.new).bytes }
    ensures read_fault { IsErrOf result ReadAllFault.ReadFault → Gave (λ count. count ≤ max)
        (before bytes.old.items (S.told src.old).bytes) (S.told src.new).bytes }
    ensures no_memory { IsErrOf result ReadAllFault.NoMemory → Gave (λ count. (0 < count) × (count ≤ max))
        (before bytes.old.items (S.told src.old).bytes) (S.told src.new).bytes }
    ensures fault { IsErrOf result ReadAllFault.ReadFault →
        CountRose (S.told src.old) (S.told src.new) }
{
    let room = max - bytes.len();
    let asked = buf.len().min(room + 1);
    let Ok(given) = src.read(&mut buf[..asked]) else {
        return Err(ReadAllFault::ReadFault);
    };
    if given == 0 {
        return Ok(false);
    }
    let too_long = given > room;
    if too_long {
        return Err(ReadAllFault::TooLong);
    }
    match bytes.extend_from_slice(&buf[..given]) {
        Ok(()) => Ok(true),
        Err(_) => Err(ReadAllFault::NoMemory),
    }
}

/// Writes all the bytes: each write offers those not yet taken. The first write that fails ends it,
/// with the number of bytes taken before.
pub fn write_all<O: Sink>(out: &mut O, bytes: &[u8]) -> Result<(), usize>
    ensures never_falls { NeverFell (O.told out.old) (O.told out.new) }

    ensures all_taken { OnOk result (Took bytes.now (O.told out.old) (O.told out.new)) }
    ensures front_taken { IfErr result (λ n. Took (take n bytes.now) (O.told out.old) (O.told out.new)) }
    ensures some_left { IfErr result (λ n. n < length bytes.now) }
    ensures fault { IfErr result (λ _. CountRose (O.told out.old) (O.told out.new)) }

    // With no bytes no write is called.
    ensures idle { length bytes.now ≡ 0 → out.new ≡ out.old }
{
    let mut done = 0;
    while done < bytes.len() {
        match out.write(&bytes[done..]) {
            Ok(count) => done += count,
            Err(_) => return Err(done),
        }
    }
    Ok(())
}

// A list that is read where it stands. The struct has a file of its own: what its ghost field names may not lead back to the file that declares it.

ghost use Rattle.records.specs.Bytes.{AllBytes};

use theory::RECORD_BYTES;

// The bytes of an interval: low 16 bits, high 16 bits, weight 64 bits, each most significant byte first.
pub type Record = [u8; RECORD_BYTES];

// Records that stand one behind the other.
#[derive(Clone, Copy)]
pub struct Records<'a> {
    pub records: &'a [Record],
    ghost bytes_fit: { AllBytes records.now },
}

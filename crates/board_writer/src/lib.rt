// Writes board images of either header from Version, the map's fields and records, the board's fields and further bytes. The image is laid in a block of
// 65,536 bytes, its check fields are worked out there, and it is handed over once a reader accepts it.

#![tactic(auto)]

ghost use Rattle.std.specs.Prelude.{◌++◌, ◌≡◌, ◌+◌, ◌*◌, ◌/◌, ◌≤◌, leb, length, take, drop};
ghost use Rattle.board_layout.specs.Layout.{header_length};
ghost use Rattle.board_writer.specs.Image.{header_of, laid_record, laid_records, image_length, body, image};
ghost use Rattle.board_writer.specs.Parts.{given, Fits, OfBytes};
ghost use Rattle.board_writer.specs.Written.{reviewed, written};
ghost use Rattle.chain.specs.First.{when};
ghost use Rattle.octets.specs.Bytes.{Octets};
ghost use Rattle.octets.specs.Put.{Holds};
ghost use Rattle.verdict.specs.Written.{written_if};

use board::BrdInfoFields;
use board_layout::{Header, header_length};
use board_records::times;
use board_rules::{check_over, covered_length, judge, prom_sig};
use kinds::Kinds;
use octets::{byte_from, bytes_at, put_at};
use structures::{board_bytes, header_bytes, map_bytes, record_bytes};
use verdict::{Refusal, keeps, refused};

mod structures;

// 40: the image would have more than 65,536 bytes.
const TOO_LONG: Refusal = Refusal {
    number: 40,
    place: 0,
};

// What an image is laid in: as many bytes as the longest has.
type Block = [u8; 65536];

// The map's fields that are given; its records are given as a run. (The reader's `EeprMapFields` has these and where the records lie in an image.)
#[derive(Clone, Copy)]
pub struct MapFields {
    pub partlabel: [u8; 16],
    pub blklength: u32,
    pub pagesize: u16,
    pub partsize: u32,
    pub busnumber: u8,
    pub master: u8,
    pub speed: u8,
}

// What an image is written of, with this header. A record of the run is its label (sixteen bytes) and its address (one); the further bytes are whole
// structures, with their heads and what pads them. (The records are bytes and no array of seventeens: a run that is not whole is refused with 46.)
#[derive(Clone, Copy)]
pub struct Parts<'a> {
    pub header: Header,
    pub version: u32,
    pub map: MapFields,
    pub records: &'a [u8],
    pub board: BrdInfoFields,
    pub further: &'a [u8],
}

// Record k of the run, laid.
#[tactic(auto, unfolding(crate::specs::Image::laid_record))]
fn laid_record(records: &[u8], block: u32, k: u32) -> [u8; 32]
    ensures { result ≡ laid_record records.now block k }
{
    let at = 17 * k as usize;
    record_bytes(
        bytes_at(records, at),
        times(k, block),
        byte_from(records, at, 16),
    )
}

// The records of a run, laid from a place of an image on.
fn lay_records(records: &[u8], block: u32, at: usize, image: &mut Block)
    requires { at + 0x20 * (length records.now / 17) ≤ 65536 }
    ensures { Holds image.new (at + 0x20 * (length records.now / 17)) (take at image.old ++ laid_records records.now block (length records.now / 17)) 65536 }
{
    for k in 0..records.len() / 17 {
        let record = laid_record(records, block, k as u32);
        put_at(&record, at + 0x20 * k, image);
    }
}

// Has an image judged with the full list, and puts it into the buffer if it is accepted and has no signature structure. The buffer is long enough for it.
#[tactic(auto, unfolding(crate::specs::Written::reviewed, kinds::specs::Kinds::all))]
fn hand_over(image: &[u8], buffer: &mut [u8]) -> Result<usize, Refusal>
    requires { length image.now ≤ length buffer.old }
    ensures { (result, buffer.new) ≡ written_if image.now buffer.old (reviewed image.now) }
{
    judge(image, Kinds::FULL)?;
    keeps(45, prom_sig(image))?;
    put_at(image, 0, buffer);
    Ok(image.len())
}

impl Parts<'_> {
    // How many bytes the image has, if no more than 65,536.
    fn length(&self) -> Option<usize>
        ensures { result ≡ when (leb (image_length (given self.now)) 65536) (image_length (given self.now)) }
    {
        let fixed = header_length(self.header) as usize + 0x90;
        let laid = fixed + 0x20 * (self.records.len() / 17);
        let end = laid.checked_add(self.further.len())?;
        (end <= 65536).then_some(end)
    }

    // All that follows the header, laid in an image.
    fn lay_body(&self, image: &mut Block)
        requires { image_length (given self.now) ≤ 65536 }
        ensures { Holds image.new (image_length (given self.now)) (take (header_length self.now.header) image.old ++ body (given self.now)) 65536 }
    {
        let start = header_length(self.header) as usize;
        let length = 0x30 + 0x20 * (self.records.len() / 17);
        let head = map_bytes(length as u32, self.map);
        put_at(&head, start, image);
        lay_records(self.records, self.map.blklength, start + 0x30, image);
        let at = start + length;
        let info = board_bytes(self.board);
        put_at(&info, at, image);
        put_at(self.further, at + 0x60, image);
    }

    // The header, put at the front of an image.
    fn lay_header(&self, end: u32, check: u32, covers: u32, image: &mut Block)
        ensures { image.new ≡ header_of self.now.header end check covers self.now.version ++ drop (header_length self.now.header) image.old }
    {
        let bytes = header_bytes(self.header, end, check, covers, self.version);
        let n = header_length(self.header) as usize;
        put_at(&bytes[..n], 0, image);
    }

    // The image of `end` bytes, laid at the front of a block: first without its check fields, then CrcLength, then Crc32.
    fn lay(&self, end: usize, block: &mut Block)
        requires { (image_length (given self.now) ≡ end) × (end ≤ 65536) }
        ensures { Holds block.new end (image (given self.now)) 65536 }
    {
        let size = end as u32;
        self.lay_body(block);
        self.lay_header(size, 0, 0, block);
        let covers = covered_length(&block[..end]) as u32;
        self.lay_header(size, 0, covers, block);
        let check = check_over(&block[..end], covers as usize);
        self.lay_header(size, check, covers, block);
    }

    // The image, put into a buffer; or the refusal.
    fn write(&self, buffer: &mut [u8]) -> Result<usize, Refusal>
        ensures { (result, buffer.new) ≡ written (given self.now) buffer.old }
    {
        if self.records.len() % 17 != 0 {
            return refused(46, 0);
        }
        let end = self.length().ok_or(TOO_LONG)?;
        if buffer.len() < end {
            return refused(41, 0);
        }
        let mut block = [0u8; 65536];
        self.lay(end, &mut block);
        hand_over(&block[..end], buffer)
    }
}

// Tells that each element of a run is a byte, as its type says. It does nothing when it runs.
fn are_bytes(run: &[u8])
    ensures { Octets run.now }
{}

// Writes the image of these parts to the front of a lent buffer: its length; or the refusal, and then no byte is changed. The numbers of any call fit their
// fields and its bytes are bytes, as the theorems on reading back and on refusals ask.
pub fn write(parts: Parts, buffer: &mut [u8]) -> Result<usize, Refusal>
    ensures { ((result, buffer.new) ≡ written (given parts.entry) buffer.old) × Fits (given parts.entry) × OfBytes (given parts.entry) }
{
    are_bytes(&parts.map.partlabel);
    are_bytes(parts.records);
    are_bytes(&parts.board.manuname);
    are_bytes(&parts.board.brdname);
    are_bytes(&parts.board.brdserial);
    are_bytes(parts.further);
    parts.write(buffer)
}

// An image that keeps rules 20 to 25, and what rules 26 to 34 say of it.
ghost use Rattle.std.specs.Prelude.{◌≡◌, length, drop, None, Ok};
ghost use Rattle.board_fields.specs.Heads.{bad_prom_sig_head};
ghost use Rattle.board_layout.specs.Layout.{structures, map_at, board_at};
ghost use Rattle.board_rules.specs.Findings.{Finds};
ghost use Rattle.board_rules.specs.Judged.{rules};
ghost use Rattle.board_rules.specs.Rules.{on_found, prom_sig_at, rule25, rule26, rule27, rule28, rule29, rule30, rule31, rule34};
ghost use Rattle.octets.specs.Bytes.{Octets};
ghost use Rattle.verdict.specs.Verdict.{answer};

use crate::known::walk_known;
use crate::walk::Findings;
use crate::{check_over, covered_by};
use board_fields::{
    bad_board_head, bad_board_type, bad_hash, bad_map, bad_map_head, bad_prom_sig_head,
};
use board_layout::{board_place, end_at, map_place};
use board_records::repeated_labels;
use kinds::Kinds;
use octets::le32_at;
use verdict::{Refusal, keeps};

// An image that keeps rules 20 to 25, so that its map and its board structure are there; a reader's list; and what the walk has found.
#[derive(Clone, Copy)]
pub struct Ordered<'a> {
    pub image: &'a [u8],
    pub kinds: Kinds,
    pub found: Findings,
    ghost bytes: { Octets image.now },
    ghost ordered: { rule25 image.now ≡ None },
    ghost finds: { Finds kinds image.now found },
}

impl<'a> Ordered<'a> {
    // Where the map starts.
    fn map(&self) -> u32
        ensures { result ≡ map_at self.now.image.now }
    {
        map_place(self.image) as u32
    }

    // Where the board structure starts.
    fn board(&self) -> u32
        ensures { result ≡ board_at self.now.image.now }
    {
        board_place(self.image) as u32
    }

    // Where the signature structure starts, if there is one.
    fn signature(&self) -> Option<u32>
        ensures { result ≡ prom_sig_at self.now.image.now }
    {
        let place = self.found.signature?;
        Some(place as u32)
    }

    // Rule 26 at the signature structure.
    fn bad_signature_head(&self) -> Option<usize>
        ensures { result ≡ on_found (bad_prom_sig_head self.now.image.now) (prom_sig_at self.now.image.now) }
    {
        bad_prom_sig_head(self.image, self.signature()?)
    }

    // Rule 26: the heads of the map, the board structure and the signature structure.
    fn bad_heads(&self) -> Option<usize>
        ensures { result ≡ rule26 self.now.image.now }
    {
        bad_map_head(self.image, self.map())
            .or(bad_board_head(self.image, self.board()))
            .or(self.bad_signature_head())
    }

    // Rule 27: Crc32, then CrcLength.
    fn bad_check(&self) -> Option<usize>
        ensures { result ≡ rule27 self.now.image.now }
    {
        let n = covered_by(self.image, self.found.signature);
        (le32_at(self.image, 0x14) != check_over(self.image, n))
            .then_some(0x14)
            .or((le32_at(self.image, 0x18) as usize != n).then_some(0x18))
    }

    // Rule 28: the board structure ends past 4,096.
    #[tactic(auto, unfolding(crate::specs::Rules::rule28))]
    fn ends_late(&self) -> Option<usize>
        ensures { result ≡ rule28 self.now.image.now }
    {
        let board = self.board();
        (4096 < end_at(self.image, board)).then_some(board as usize)
    }

    // Rule 29: HashType of the signature structure, if there is one.
    #[tactic(auto, unfolding(crate::specs::Rules::rule29))]
    fn bad_signature(&self) -> Option<usize>
        ensures { result ≡ rule29 self.now.image.now }
    {
        bad_hash(self.image, self.signature()?)
    }

    // Rule 30: the map.
    #[tactic(auto, unfolding(crate::specs::Rules::rule30))]
    fn bad_map(&self) -> Option<usize>
        ensures { result ≡ rule30 self.now.image.now }
    {
        bad_map(self.image, self.map())
    }

    // Rule 34: the labels of the map's records.
    #[tactic(auto, unfolding(crate::specs::Rules::rule34))]
    fn repeated_labels(&self) -> Option<usize>
        ensures { result ≡ rule34 self.now.image.now }
    {
        repeated_labels(self.image, self.map())
    }

    // Rule 31: BoardType.
    #[tactic(auto, unfolding(crate::specs::Rules::rule31))]
    fn bad_board_type(&self) -> Option<usize>
        ensures { result ≡ rule31 self.now.image.now }
    {
        bad_board_type(self.image, self.board())
    }

    // The rules from 32 on.
    fn judge_known(&self) -> Result<usize, Refusal>
        ensures { result ≡ answer (drop 13 (rules self.now.kinds self.now.image.now)) (Ok (length (structures self.now.image.now))) }
    {
        let contents = walk_known(self.image, self.kinds, self.found.rest);
        keeps(32, contents.reserved)?;
        keeps(33, contents.inside)?;
        Ok(self.found.count)
    }

    // The rules from 29 on.
    fn judge_fields(&self) -> Result<usize, Refusal>
        ensures { result ≡ answer (drop 9 (rules self.now.kinds self.now.image.now)) (Ok (length (structures self.now.image.now))) }
    {
        keeps(29, self.bad_signature())?;
        keeps(30, self.bad_map())?;
        keeps(34, self.repeated_labels())?;
        keeps(31, self.bad_board_type())?;
        self.judge_known()
    }

    // The rules from 26 on.
    pub fn judge(&self) -> Result<usize, Refusal>
        ensures { result ≡ answer (drop 6 (rules self.now.kinds self.now.image.now)) (Ok (length (structures self.now.image.now))) }
    {
        keeps(26, self.bad_heads())?;
        keeps(27, self.bad_check())?;
        keeps(28, self.ends_late())?;
        self.judge_fields()
    }
}

// From the bytes of a sheet to its judgement.
ghost use Rattle.std.specs.Prelude.{◌≡◌};
ghost use Rattle.fields.specs.Order.{answer_code};
ghost use Rattle.rules.specs.declared.method.Method.TheVariants.{D100};
ghost use Rattle.sheet.specs.Complete.{entries_of};
ghost use Rattle.sheet.specs.Reading.{read_in};
ghost use Rattle.claims.specs.Meets.{Justified};
ghost use Rattle.marking.specs.Marking.{marked, mark_code};

use judge::judging;
use reports::report::Judgement;

// D100: "the printing program and file reports use D100" (document 02, S-3). By number, since
// `judge_completed` takes one.
const METHOD: u32 = 1;

// Reads the sheet that these bytes hold, and judges it by D100. Refused: as reading is, then as judging is.
pub fn judge_bytes(bytes: &[u8]) -> Judgement
    ensures value { result ≡ marked bytes.now }
    ensures code { answer_code result.answer ≡ mark_code bytes.now }
    ensures justified { Justified D100 (entries_of (read_in bytes.now).sheet) result }
{
    judging::judge_completed(METHOD, complete::of_bytes(bytes))
}

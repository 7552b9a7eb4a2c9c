// A change, applied: what is asked, the changed plan, and its tag file.
ghost use Rattle.std.specs.Prelude.{◌≡◌, length};
ghost use Rattle.numbering.specs.Tables.{numbers_at};
ghost use Rattle.tree.specs.Build.{after_tags};
ghost use Rattle.changing.specs.Change.{changed_file};
ghost use Rattle.changing.specs.Questions.{change_answer_of, after_change};

use crate::questions::ask_change;
use crate::records::Change;
use crate::writing::write_changed;
use numbering::Built;
use plan::Plan;
use refusals::Refusal;

/// Writes the changed plan and its tag file, and answers as build does of the changed plan. All is asked before anything is written.
#[tactic(auto, using(refusals::proofs::Questions::in_turn, crate::proofs::Applied::applying), unfolding(crate::specs::Questions::change_questions, crate::specs::Questions::change_answer_of, crate::specs::Questions::after_change, tree::specs::Build::after_tags))]
pub fn apply(
    file: &[u8],
    change: Change,
    changed: &mut [u8],
    tags: &mut [u8],
) -> Result<Built, Refusal>
    ensures value { result ≡ change_answer_of file.now change (length changed.old) (length tags.old) }
    ensures changed_after { changed.new ≡ after_change result (changed_file file.now change) changed.old }
    ensures tags_after { tags.new ≡ after_tags result (numbers_at (changed_file file.now change)) tags.old }
{
    let plan = Plan::new(file)?;
    ask_change(&plan, change, changed.len(), tags.len())?;
    let end = write_changed(&plan, change, changed);
    tree::tag_file(&changed[..end], tags)
}

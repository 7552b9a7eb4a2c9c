// A plan with a window more or less, and its tag file.
ghost use Rattle.std.specs.Prelude.{◌≡◌};
ghost use Rattle.numbering.specs.Tables.{numbers_at};
ghost use Rattle.tree.specs.Build.{after_tags};
ghost use Rattle.changing.specs.Change.{changed_file, adding, withdrawing};
ghost use Rattle.changing.specs.Questions.{after_change};
ghost use Rattle.packing.specs.Packing.{packed_build};
ghost use Rattle.poddreshi.specs.Lent.{changed_in};

use changing::{Change, Edit};
use packing::Packed;
use plan::Window;

/// The plan with the window of this offset and so many minutes.
pub fn poddreshi_add(
    file: &[u8],
    plan: u16,
    offset: u32,
    minutes: u32,
    changed: &mut [u8],
    tags: &mut [u8],
) -> u64
    ensures value { result ≡ packed_build (changed_in file.now (adding plan (record { offset = offset; length = minutes })) changed.old tags.old) }
    ensures changed_after { changed.new ≡ after_change (changed_in file.now (adding plan (record { offset = offset; length = minutes })) changed.old tags.old) (changed_file file.now (adding plan (record { offset = offset; length = minutes }))) changed.old }
    ensures tags_after { tags.new ≡ after_tags (changed_in file.now (adding plan (record { offset = offset; length = minutes })) changed.old tags.old) (numbers_at (changed_file file.now (adding plan (record { offset = offset; length = minutes })))) tags.old }
{
    let window = Window {
        offset,
        length: minutes,
    };
    let change = Change {
        plan,
        edit: Edit::Add(window),
    };
    changing::apply(file, change, changed, tags).pack()
}

/// The plan without the window at a position.
pub fn poddreshi_withdraw(
    file: &[u8],
    plan: u16,
    at: usize,
    changed: &mut [u8],
    tags: &mut [u8],
) -> u64
    ensures value { result ≡ packed_build (changed_in file.now (withdrawing plan at) changed.old tags.old) }
    ensures changed_after { changed.new ≡ after_change (changed_in file.now (withdrawing plan at) changed.old tags.old) (changed_file file.now (withdrawing plan at)) changed.old }
    ensures tags_after { tags.new ≡ after_tags (changed_in file.now (withdrawing plan at) changed.old tags.old) (numbers_at (changed_file file.now (withdrawing plan at))) tags.old }
{
    let change = Change {
        plan,
        edit: Edit::Withdraw(at),
    };
    changing::apply(file, change, changed, tags).pack()
}

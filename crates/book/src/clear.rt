// Empties a sheet by its own operations.
ghost use Rattle.std.specs.Prelude.{◌≡◌, [], length};
ghost use Rattle.sheets.specs.Sides.{sides_of, with_side};

use market::Side;
use sheets::OrderSheet;

// Takes every order of one side out, the first one first.
fn clear_side<S: OrderSheet>(sheet: &mut S, side: Side)
    ensures after { S.OrderSheet.meaning sheet.new ≡ with_side side [] (S.OrderSheet.meaning sheet.old) }
    ensures size { S.OrderSheet.room sheet.new ≡ S.OrderSheet.room sheet.old }
    ensures rows { length (S.OrderSheet.rows sheet.new) ≡ length (S.OrderSheet.rows sheet.old) }
{
    while let Some(order) = sheet.next(side, None) {
        let _ = sheet.take(order.number);
    }
}

// Takes every order out.
pub(crate) fn clear<S: OrderSheet>(sheet: &mut S)
    ensures after { S.OrderSheet.meaning sheet.new ≡ sides_of [] [] }
    ensures size { S.OrderSheet.room sheet.new ≡ S.OrderSheet.room sheet.old }
    ensures rows { length (S.OrderSheet.rows sheet.new) ≡ length (S.OrderSheet.rows sheet.old) }
{
    clear_side(sheet, Side::Buy);
    clear_side(sheet, Side::Offer);
}

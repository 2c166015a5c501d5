// Lists of records' indices.
ghost use Rattle.std.specs.Prelude.{◌≤◌, length};
ghost use Rattle.numbers.specs.Folds.{Filled};

// Lists as many records as there are places, from the first on.
pub(crate) fn list_all(list: &mut [u16])
    requires { length list.old ≤ 65_536 }
    ensures { Filled 0 (λ u. u) (length list.old) list.new }
{
    for u in 0..list.len() {
        list[u] = u as u16;
    }
}

// Whether a list of numbers names each sheet of a job exactly once.
ghost use Rattle.sequences.specs.Sequences.{Sequence, is_sequence, times};
ghost use Rattle.std.specs.List.{list_all, range_with_len};
ghost use Rattle.std.specs.Prelude.{◌≡◌, Decides, nat_eq, nat_lt};

pub fn is_sequence(sheets: u8, list: &[u8]) -> bool
    ensures value { result ≡ is_sequence sheets list.now }
    ensures meaning { Decides result (Sequence sheets list.now) }
{
    all_below(sheets, list) && each_once(sheets, list)
}

fn all_below(sheets: u8, list: &[u8]) -> bool
    ensures value { result ≡ list_all (λ p. nat_lt p sheets) list.now }
{
    list.iter().all(|&sheet| sheet < sheets)
}

fn each_once(sheets: u8, list: &[u8]) -> bool
    ensures value { result ≡ list_all (λ p. nat_eq (times list.now p) 1) (range_with_len 0 sheets) }
{
    (0..sheets).all(|sheet| times(list, sheet) == 1)
}

// How often the list names a sheet. A sum goes over the list in one loop; `filter` and `count` take half as long again.
fn times(list: &[u8], sheet: u8) -> usize
    ensures value { result ≡ times list.now sheet }
{
    list.iter().map(|&named| usize::from(named == sheet)).sum()
}

// What holds of the compaction of every list of entries, of every kind.
ghost use Rattle.compaction.specs.Theorems.{Replays, Updates, Settles, StandsOnce, NoDefault, CountsNames, Counts};

pub fn theory_stands()
    ensures replays { Replays }
    ensures updates { Updates }
    ensures settles { Settles }
    ensures stands_once { StandsOnce }
    ensures no_default { NoDefault }
    ensures counts_names { CountsNames }
    ensures counts { Counts }
{}

//! Short drills, computed by their definitions, against texts that were made apart from them.

ghost use Rattle.std.specs.Prelude.{◌≡◌, ◌/◌, codes};
ghost use Rattle.petal_drill.specs.Drill.{draw, drill_text};
ghost use Rattle.petal_drill.specs.Summary.{counts_line};

/// The first numbers that are drawn from 1, before they are taken to stand for something.
pub fn first_draws()
    ensures one { draw 1 / 65536 ≡ 16838 }
    ensures two { draw (draw 1) / 65536 ≡ 5758 }
    ensures three { draw (draw (draw 1)) / 65536 ≡ 10113 }
    ensures four { draw (draw (draw (draw 1))) / 65536 ≡ 17515 }
{}

/// Drills of no request and of two, word for word.
pub fn short_drills()
    ensures none { drill_text 0 0 ≡ codes "servers 5 slots 256\na disk vol on 0 1 2 3 4\nwait\nwait\n" }
    ensures two { drill_text 1 2 ≡ codes "servers 5 slots 256\na disk vol on 0 1 2 3 4\nwait\ng write vol 54 fill 169\nd read vol 27\nwait\n" }
    ensures line { counts_line 1 2 0 (record { writes = 1; reads = 1; sum = 0 }) ≡ codes "drill 1 2: writes 1 reads 1 stops 0 sum 0\n" }
{}

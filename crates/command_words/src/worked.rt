//! Worked words: what some lists of words give by the program's own table. The one function has an empty body, and its contract is the law.

ghost use Rattle.command_words.specs.WorkedWords.{
  DrawGives,
  DropGives,
  ImportsGive,
  KeepGives,
  LegsGives,
  LotteryGives,
  MakeGives,
  NextRoundGives,
  OthersGive,
  PageGives,
  PlainGive,
  ProveGives,
  ReopenGives,
  SealGives,
  SearchesGive,
  ServeGives,
  ShortGives,
  ShownRoundsGive,
  SolveGives,
  UndropGives,
  WithdrawGives,
};

/// The names of the commands, their defaults and the ends of their ranges are those of `specs/WorkedWords.antt`.
pub fn words_are_worked()
    ensures prove { ProveGives }
    ensures keep { KeepGives }
    ensures plain { PlainGive }
    ensures seal { SealGives }
    ensures draw { DrawGives }
    ensures short { ShortGives }
    ensures solve { SolveGives }
    ensures drop { DropGives }
    ensures next_round { NextRoundGives }
    ensures undrop { UndropGives }
    ensures reopen { ReopenGives }
    ensures withdraw { WithdrawGives }
    ensures shown { ShownRoundsGive }
    ensures imports { ImportsGive }
    ensures searches { SearchesGive }
    ensures lottery { LotteryGives }
    ensures legs { LegsGives }
    ensures make { MakeGives }
    ensures others { OthersGive }
    ensures page { PageGives }
    ensures serve { ServeGives }
{}

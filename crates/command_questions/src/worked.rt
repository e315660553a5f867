//! Worked examples: the answers about a bundle of four volunteers, byte for byte. The functions have no body.

ghost use Rattle.std.specs.Prelude.{◌≡◌, codes};
ghost use Rattle.command_questions.specs.Questions.{question_text};
ghost use Rattle.command_questions.specs.WorkedQuestions.{uneven};
ghost use Rattle.command_questions.specs.declared.questions.Question.TheVariants.{Chances, Dice, Tickets};

/// One die names one of three tickets; a throw of 9 is thrown again.
pub fn worked_dice()
    ensures { question_text Dice uneven ≡ codes "digits\t1\ntickets\t3\nrefused\t1/10\t0.1\n" }
{}

/// The first panel has one ticket, the second two.
pub fn worked_tickets()
    ensures { question_text Tickets uneven ≡ codes "0\t1\ta\tc\n1-2\t2\tb\td\n" }
{}

/// Two have the chance 1/3, and two the chance 2/3. One woman and one man are expected.
pub fn worked_chances()
    ensures { question_text Chances uneven ≡ codes "chance\ta\t1/3\t0.3333\nchance\tb\t2/3\t0.6667\nchance\tc\t1/3\t0.3333\nchance\td\t2/3\t0.6667\nsum\tgender\tfemale\t1\t1\t1/1\nsum\tgender\tmale\t1\t1\t1/1\ncertain\t0\nnever\t0\nleast\t1/3\t2\ngreatest\t2/3\t2\n" }
{}

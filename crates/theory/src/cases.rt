// The worked cases, decided by computing the definitions.
ghost use Rattle.theory.specs.Cases.{CasesStand};

// Every row of the table of worked cases has the answer that the definitions give.
pub fn cases_stand()
    ensures { CasesStand }
{}

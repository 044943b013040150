// The law over every sequence of calls, and what else the calls promise, each the contract of a function.
ghost use Rattle.calls.specs.Law.{EveryRunIsLawful};
ghost use Rattle.calls.specs.Promises.{RowRefusalsLeave, FinishRefusalsLeave, FileIsItsCalls, RecordsComeOut, SheetTakesItsOwn, PairingIsOne, SealedRowsPair};

pub fn every_run_is_lawful()
    ensures { EveryRunIsLawful }
{}

pub fn row_refusals_leave()
    ensures { RowRefusalsLeave }
{}

pub fn finish_refusals_leave()
    ensures { FinishRefusalsLeave }
{}

pub fn file_is_its_calls()
    ensures { FileIsItsCalls }
{}

pub fn records_come_out()
    ensures { RecordsComeOut }
{}

pub fn sheet_takes_its_own()
    ensures { SheetTakesItsOwn }
{}

pub fn pairing_is_one()
    ensures { PairingIsOne }
{}

pub fn sealed_rows_pair()
    ensures { SealedRowsPair }
{}

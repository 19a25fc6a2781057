// What is the same of every run on the same arguments and file.
ghost use Rattle.std.specs.Prelude.{◌≡◌, ◌≢◌, ℕ, List, Option};
ghost use Rattle.command_spec.specs.declared.settings.Settings.{Settings};
ghost use Rattle.top_words.specs.declared.status.Status.{Status};
ghost use Rattle.icache_top.specs.Answer.{AreSameFor, Decides, IsAnswerOf};
ghost use Rattle.icache_top.specs.JobRecords.{AreRecordsOf};
ghost use Rattle.icache_top.specs.declared.outcome.JobRecord.{JobRecord};

/// Where the arguments give settings, the file is known and no port fails, all runs on them end alike, unless memory runs
/// out: with one status, and at `Done` with texts that differ in the ways of unknown lines alone. How a source cuts its
/// bytes, and how many a sink takes at a time, changes nothing else.
pub fn answer_laws()
    ensures status { (words : List (List ℕ)) (file : List ℕ) (status other : Status) (old new before now : Option (List ℕ))
        → Decides words file status old new → Decides words file other before now
        → status ≢ Status.OutOfMemory → other ≢ Status.OutOfMemory → status ≡ other }
    ensures text { (settings : Settings) (file text other : List ℕ)
        → IsAnswerOf settings file text → IsAnswerOf settings file other → AreSameFor settings.ask text other }
    ensures jobs { (settings : Settings) (file : List ℕ) (records others : List JobRecord)
        → AreRecordsOf settings file records → AreRecordsOf settings file others → records ≡ others }
{}

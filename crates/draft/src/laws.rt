// The laws of files and drafts.
ghost use Rattle.draft.specs.Drafts.{EveryDraftFits};
ghost use Rattle.draft.specs.File.{ReadsWhatIsWritten, WritesWhatIsRead, OneFile};
ghost use Rattle.draft.specs.Refused.{RefusalsTellTheFirstFault};

// Files and drafts match both ways, every draft has a file, and what is no draft's file is refused by its first fault.
pub fn files_and_drafts_match()
    ensures read { ReadsWhatIsWritten }
    ensures write { WritesWhatIsRead }
    ensures one { OneFile }
    ensures first { RefusalsTellTheFirstFault }
    ensures every { EveryDraftFits }
{}

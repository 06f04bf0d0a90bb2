// What the laws of a rule imply for reports.
ghost use Rattle.letters.specs.Named.{OneNamed};

// At most one block is named by a quorum of the reports, under any rule with its laws.
pub fn one_block_is_named()
    ensures { OneNamed }
{}

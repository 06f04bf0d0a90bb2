// The six calls. A refused call leaves the cluster exactly as it was.
ghost use Rattle.std.specs.Prelude.{◌≡◌};
ghost use Rattle.protocol.specs.Calls.{reply, after};
ghost use Rattle.cluster.specs.Held.{state_of};
ghost use Rattle.protocol.specs.declared.call.Call.TheVariants.{Fast, Slow, Show, Expire, Vote, Letter as Write};

use crate::cluster::Cluster;
use book::block::Proposal;
use letters::letter::Letter;
use protocol::call::Call;
use quorum::rule::QuorumRule;
use refusal::Refusal;
use rotation::turns::Rotation;

impl<R: QuorumRule, T: Rotation> Cluster<R, T> {
    // A leader proposes on the votes for the parent. Gives the number of the block.
    pub fn fast(&mut self, proposal: Proposal) -> Result<u32, Refusal>
        ensures reply { result ≡ reply (state_of R.QuorumRule T.Rotation self.old) (Fast proposal) }
        ensures after { state_of R.QuorumRule T.Rotation self.new ≡ after (state_of R.QuorumRule T.Rotation self.old) (Fast proposal) }
    {
        self.inner.fast(&self.rule, &self.rotation, &proposal)
    }

    // A leader proposes on the reports of a quorum. Gives the number of the block.
    pub fn slow(&mut self, proposal: Proposal) -> Result<u32, Refusal>
        ensures reply { result ≡ reply (state_of R.QuorumRule T.Rotation self.old) (Slow proposal) }
        ensures after { state_of R.QuorumRule T.Rotation self.new ≡ after (state_of R.QuorumRule T.Rotation self.old) (Slow proposal) }
    {
        self.inner.slow(&self.rule, &self.rotation, &proposal)
    }

    // Shows a block to a kept seat. Gives 1 for a vote, else 0.
    pub fn show(&mut self, seat: u8, block: u32) -> Result<u32, Refusal>
        ensures reply { result ≡ reply (state_of R.QuorumRule T.Rotation self.old) (Show seat block) }
        ensures after { state_of R.QuorumRule T.Rotation self.new ≡ after (state_of R.QuorumRule T.Rotation self.old) (Show seat block) }
    {
        self.inner.show(&self.rule, seat, block)
    }

    // A kept seat leaves its view for a later one, and a letter names its last vote. Gives that block.
    pub fn expire(&mut self, seat: u8, view: u32) -> Result<u32, Refusal>
        ensures reply { result ≡ reply (state_of R.QuorumRule T.Rotation self.old) (Expire seat view) }
        ensures after { state_of R.QuorumRule T.Rotation self.new ≡ after (state_of R.QuorumRule T.Rotation self.old) (Expire seat view) }
    {
        self.inner.expire(&self.rule, seat, view)
    }

    // An open seat votes for a block. Gives the number of voters.
    pub fn vote(&mut self, seat: u8, block: u32) -> Result<u32, Refusal>
        ensures reply { result ≡ reply (state_of R.QuorumRule T.Rotation self.old) (Vote seat block) }
        ensures after { state_of R.QuorumRule T.Rotation self.new ≡ after (state_of R.QuorumRule T.Rotation self.old) (Vote seat block) }
    {
        self.inner.vote(&self.rule, seat, block)
    }

    // An open seat writes a letter. Gives the number of letters.
    pub fn letter(&mut self, letter: Letter) -> Result<u32, Refusal>
        ensures reply { result ≡ reply (state_of R.QuorumRule T.Rotation self.old) (Write letter) }
        ensures after { state_of R.QuorumRule T.Rotation self.new ≡ after (state_of R.QuorumRule T.Rotation self.old) (Write letter) }
    {
        self.inner.letter(&self.rule, letter)
    }

    // Any of these calls, as a value: they are a closed set.
    pub fn call(&mut self, call: Call) -> Result<u32, Refusal>
        ensures reply { result ≡ reply (state_of R.QuorumRule T.Rotation self.old) call }
        ensures after { state_of R.QuorumRule T.Rotation self.new ≡ after (state_of R.QuorumRule T.Rotation self.old) call }
    {
        match call {
            Call::Fast(proposal) => self.fast(proposal),
            Call::Slow(proposal) => self.slow(proposal),
            Call::Show { seat, block } => self.show(seat, block),
            Call::Expire { seat, view } => self.expire(seat, view),
            Call::Vote { seat, block } => self.vote(seat, block),
            Call::Letter(letter) => self.letter(letter),
        }
    }
}

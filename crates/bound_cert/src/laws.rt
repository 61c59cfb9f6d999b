// What certificates prove.
ghost use Rattle.bound_cert.specs.Laws.{WeakDuality, BoundsMembers, BoundsMixes, TreesBound, LinesAreTrees, TextsName, ValidIsSo, ValidPasses, FailureIsNotValid, OneFailure, RunsOnUnfailed, BadIsNoDocument, OneBadLine, OneDocument, LinesAreShort, LinesTellDocuments};

/// The laws of certificates, for every table that keeps to the limits: multipliers bound what members replicate, trees
/// pass bounds up to their root, and what a valid document says is so. A text passes every judgement exactly where it is
/// that of a valid document, else one fails first, and a text is that of one document at most. Lines that tell to the end
/// are those of a valid document, and have told what it says.
pub fn certificate_laws()
    ensures duality { WeakDuality }
    ensures members { BoundsMembers }
    ensures mixes { BoundsMixes }
    ensures trees { TreesBound }
    ensures lines { LinesAreTrees }
    ensures names { TextsName }
    ensures sound { ValidIsSo }
    ensures judged { ValidPasses }
    ensures failed { FailureIsNotValid }
    ensures one_failure { OneFailure }
    ensures unfailed { RunsOnUnfailed }
    ensures bad { BadIsNoDocument }
    ensures one_line { OneBadLine }
    ensures one { OneDocument }
    ensures short { LinesAreShort }
    ensures told { LinesTellDocuments }
{}

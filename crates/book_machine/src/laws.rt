//! What the definition of a step implies, stated on public functions since only what a contract names is proved.

ghost use Rattle.book_machine.specs.SyncedCopies.{GrantedReportsAreTold};
ghost use Rattle.book_machine.specs.Unseen.{AgreeingOfficesMayDiffer, AgreeingOfficesMayDifferWhereNamed, AgreeingOfficesRunAlike, AgreeingOfficesStepAlike, AgreementIsAnEquivalence, EpochsNeverFall, RunsNeverLowerTheEpoch};
ghost use Rattle.book_machine.specs.Laws.{DenialsAreTold, ListingsTellTheResource, RefusalsChangeNothing, RequestsActWhereGranted, RequestsAreFullAtLimits, RequestsHaveOneStep, RunsAreSynced, StepsAreAvailable, StepsExist, TellingRepliesChangeNothing};

/// In an Office a request has one reply, and leaves one Office.
pub fn requests_have_one_step()
    ensures { RequestsHaveOneStep }
{}

/// In each Office each request has a reply, and leaves an Office.
pub fn steps_exist()
    ensures { StepsExist }
{}

/// Among the requests that pass the stages caller, shape and path, the reply is a success, or a refusal by the body or
/// by the limits, exactly where each privilege that the method needs is granted (RFC 3744, section 6). To each other
/// the reply names the resource, the privilege and the deciding entry (RFC 3744, section 7.1.1).
pub fn requests_act_where_granted()
    ensures granted { RequestsActWhereGranted }
    ensures denied { DenialsAreTold }
{}

/// The first response to a PROPFIND tells the resource that was asked for, and is no denial: a request whose needs are
/// not granted at it is denied as a whole (RFC 3744, section 7.1.1).
pub fn listings_tell_the_resource()
    ensures { ListingsTellTheResource }
{}

/// Where the needs are granted and the body is accepted, a request is refused as full (RFC 4918, section 11.5) exactly
/// where its edit would leave an Office beyond a limit (own profile).
pub fn requests_are_full_at_limits()
    ensures { RequestsAreFullAtLimits }
{}

/// Every refusal, and every reply with a content, leaves the Office as it was. None of a step is `Unavailable`, which
/// tells want of memory or a failed store.
pub fn refusals_change_nothing()
    ensures unchanged { RefusalsChangeNothing }
    ensures telling { TellingRepliesChangeNothing }
    ensures available { StepsAreAvailable }
{}

/// A request for a sync report that is granted is told the report on the Office that it finds, or is refused by
/// valid-sync-token where the token is not valid (RFC 6578, section 3.2), and changes nothing.
pub fn granted_reports_are_told()
    ensures { GrantedReportsAreTold }
{}

/// Contents that a caller may not read stay unseen (own profile). Two Offices agree for a caller where they are equal
/// but for the labels and texts of the cards on which it is not allowed `read`; where it is allowed `x-read-names` on
/// one, both texts say one name, or are no cards. From Offices that agree for its caller a request has one reply, and
/// it leaves Offices that agree, unless it is a MOVE or raises the epoch, which no request lowers. So a run of calls by
/// one caller without them is a run from each Office that agrees.
pub fn unread_contents_stay_unseen()
    ensures agreement { AgreementIsAnEquivalence }
    ensures steps { AgreeingOfficesStepAlike }
    ensures differ { AgreeingOfficesMayDiffer }
    ensures differ_named { AgreeingOfficesMayDifferWhereNamed }
    ensures epochs { EpochsNeverFall }
    ensures run_epochs { RunsNeverLowerTheEpoch }
    ensures runs { AgreeingOfficesRunAlike }
{}

/// In each run of well formed calls, from a sound Office, copies that are kept by reports are what their
/// callers may read, whatever others ask in between (RFC 6578, section 3); a token ends with the epoch (own profile).
pub fn runs_are_synced()
    ensures { RunsAreSynced }
{}

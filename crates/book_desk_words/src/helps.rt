//! What help tells of the commands.

pub(crate) const ABOUT: &str =
    "Shared contact books of an office: WebDAV access lists (RFC 3744) and vCards (RFC 6350)";

/// The number of VERSION, at the top of the repository, which `tools/check-streams` compares.
pub const VERSION: &str = "0.13.0";

/// What follows a text of what is wrong with the words.
pub(crate) const USAGE_LINES: &str =
    "\n\nUsage: book_desk <COMMAND>\n\nFor more information, try '--help'.\n";

/// What is wrong with words that are not UTF-8.
pub(crate) const NOT_TEXT: &str = "invalid UTF-8 was detected in one or more arguments";

/// What is wrong with a time that is none.
pub(crate) const NOT_TIME: &str = "denials wants '--since <TIME>' as 2026-11-29T00:45:58.123Z";

/// What the options of `serve`, of `load` and of commands over a store want of each other, and the words of `why` and `backup`.
pub(crate) const SERVE_WANTS: &str =
    "serve wants '--port <N>' or '--socket <PATH>', with '--mode <OCTAL>', of three or four digits, also '--socket <PATH>', one of '--connections <N>' and '--forever', with '--idle <N>' or '--control <PATH>' also '--at-once <N>', and with '--existing' also '--store <FILE>'; import, differs, audit, why, who, rights, ask, dump and show want one of '--store <FILE>' and '--control <PATH>', and check one at most; why wants DESTINATION with COPY and MOVE; backup wants one of '--to <NEW>' and '--check <COPY>'; load wants with '--at <BOOK>' also '--owner <FROM=TO>', with '--heir <PRINCIPAL>' also '--without <PERSON>', and with '--above <N>' also '--new-epoch'";

pub(crate) const EXPLAIN: &str = "Reads a question from standard input and prints its decision";

pub(crate) const QUESTION: &str = "\
Input, a line for each. Words are separated by one space, lines end with LF alone, and empty lines and lines that begin
with # are skipped. A file is given by <, as in: book_desk explain < question.txt
  member GROUP MEMBER      a direct membership; at most 1,000
  caller PERSON            who asks; or caller - for nobody; once
  need NAME ..             the privileges that are needed; once
  owner PRINCIPAL          who owns the resource; at most once
  here PRINCIPAL           the resource is that principal; at most once
  grant [not] WHO NAME ..  an entry of the access list, in order; at most 64
  deny [not] WHO NAME ..   the same
A PERSON is /people/NAME, a GROUP is /groups/NAME, and a PRINCIPAL or MEMBER is either. WHO is a PRINCIPAL or one of
all, authenticated, unauthenticated, owner, self. The privileges are x-read-texts, write-content, write-properties, bind,
unbind, read-acl, write-acl, read-current-user-privilege-set, x-read-names, read (the first and the last of these), write
(the second to the fifth) and all.

Output:
  allowed | denied NAME by N | denied NAME, none granted
  granted: NAME ..         all that the list grants to the caller, or -
N is the number of the entry that denies, from 1.

A fault is told on standard error as 'line N: FAULT', for the first line that has one. In this order it is
  bad-line           the line has none of these forms
  bad-name           a word is no principal, or not a group or a person where one is wanted
  unknown-privilege  a word is no privilege
  twice              a second caller, need, owner or here
  too-many           more than 1,000 members or 64 entries
and then, at line 0, missing: there is no caller or no need; or at any time memory, at line 0.

Status: 0 answered, 1 refused input, 2 usage, 3 memory, or a failed read or write.
";

pub(crate) const CARD: &str =
    "Reads a card from standard input and prints what it says, or why it is refused";

pub(crate) const CARD_TEXT: &str = "\
Input: one vCard of version 4.0 in UTF-8, of at most 65,536 bytes, whose lines end with CRLF or LF. A file is given by
<, as in: book_desk card < person.vcf
  BEGIN:VCARD
  VERSION:4.0
  [GROUP.]NAME[;PARAMETER=VALUE,..]:VALUE   a content line; any number of them
  END:VCARD
A line end that one space or tab follows is a fold: both are removed first, and lines are counted after that.
FN stands at least once, KIND and UID at most once, and MEMBER, which is a URI, only where KIND is group.

Output, each value as written:
  valid
  kind: KIND      individual where the card names none
  uid: UID        - where the card has none
  fn: FN          the first
  member: MEMBER  a line for each, in order

A fault is told on standard error as 'line N: FAULT', with N from 1, or 0 for the whole text. In this order it is
  too-long              the text has more than 65,536 bytes
and then in the first line that has one
  no-begin              the first line is not BEGIN:VCARD
  no-version            the second line does not begin with VERSION:
  other-version         the version is not 4.0
  bad-line              it is no content line, has a control character, or is named BEGIN or END; or it is a KIND
                        that is not letters, digits and hyphens, or a MEMBER that is no URI
  twice                 it is a second KIND, UID or VERSION
and then
  no-end                no line is END:VCARD
  after-end             a line after it is not empty
  no-fn                 there is no FN; told at the line of END:VCARD
  member-without-group  there is a MEMBER, and KIND is not group
or at any time memory, at line 0.

Status: 0 valid, 1 refused input, 2 usage, 3 memory, or a failed read or write.
";

pub(crate) const FOLDER: &str = "The folder, which is made where it is missing";

pub(crate) const INIT: &str = "Writes a policy and settings to begin with";

pub(crate) const INIT_TEXT: &str = "\
In the folder it makes policy.toml, a policy with an administrator, a group, a book and the person as whom the gateway
asks, and gateway.toml, settings of the gateway. Only who runs it may read them. As in:
  book_desk init office

Output: the next commands.

Told on standard error, on a line
  init: exists          a file of one of these names is there; nothing was made
  init: write           the folder or a file could not be made; what was made is removed again
  output: write         they were made, and it could not be told

Status: 0 made, 1 a file is there, 2 usage, 3 a failed write.
";

pub(crate) const IMPORT: &str = "Adopts a policy in a store";

pub(crate) const IMPORT_TEXT: &str = "\
The policy names persons, groups with their members, books, and entries of access lists. As in:
  book_desk import --store office.db examples/policies/office.toml
What a policy leaves out stays in the store: to leave something out revokes nothing. With --control the server adopts it
between two requests:
  book_desk import --control office.control examples/policies/office.toml

Output:
  changed, epoch N | unchanged, epoch N
N is the epoch of the store. It rises with each policy that changes anything, each ACL, each PROPPATCH of the members of a
group, and each book that is removed; then every sync token that was given before is refused.

Told on standard error, each on a line, where nothing was changed
  input: read           the policy could not be read
  store: FAULT          the store can't be had: other-version, no-store, memory, or store
  input: not-utf-8      the policy is not UTF-8
  policy: FAULT         the policy is refused: not-toml, other-version, bad-key, bad-name, name-twice,
                        unknown-principal, unknown-resource, unknown-privilege, too-many, or memory
  adopt: FAULT          the policy was not adopted: full, or unavailable
or where it was adopted
  output: write         it could not be told

Status: 0 adopted; 1 the policy is refused; 2 usage; 3 the store, memory, or a failed read or write.
";

pub(crate) const EXISTING: &str =
    "The store has to be there: a file that is missing or empty is no store, and none is made";

pub(crate) const CHECK: &str =
    "Tells each fault of a policy, with its place, and what a sound one leaves open";

pub(crate) const STRICT: &str = "What a sound policy leaves open ends with status 1";

pub(crate) const CHECKED_STORE: &str =
    "The file of a store, which has to be there: what adopting the policy there would leave open";

pub(crate) const CHECK_TEXT: &str = "\
As in: book_desk check examples/policies/office.toml
No file is changed. With --store or --control the policy is adopted over a copy of that store in memory, else over an empty one.

Output, where the policy is sound: a line for each thing that it leaves open, with its place; at most 1,000, and then how
many more. As in
  entry 9 (at /books/law, who all): never decides: behind own entry 2 at /books/law
  /books/law: nobody may change its list
  ada: PROPPATCH /groups/law (+ /people/ada); then GET /books/law/* is granted
  ada: PROPPATCH /groups/law (+ /people/ada); then at /books/law is granted: write-acl
The last two are of a person to whom a book is closed, or who holds less at a resource, and whose own requests change that:
they were served over the policy in memory. That no such line is told is no promise.

Told on standard error, a line for each fault, in the order of their places; at most 1,000, and then how many more
  PLACE: KEY: FAULT     as in: entry 12 (at /books/sales, who /groups/helpers): who: unknown-principal
PLACE is top, or person, group, book or entry with its number among its kind. A line that tells a wrong key or value and
no name of a fault is bad-key. The names are those of import, which tells the first of them in its order. A policy that is
not TOML has one line, with the line and the column; one of more than 1,048,576 bytes is too-many alone.
  input: read           the policy could not be read
  input: not-utf-8      it is not UTF-8
  store: FAULT          over a store, as audit
  adopt: full           over a store, as import

Status: 0 sound; 1 a fault, or with --strict a line on standard output; 2 usage; 3 memory, or a failed read or write.
";

pub(crate) const AUDIT: &str = "Prints the memberships and the access lists of a store";

pub(crate) const AUDIT_TEXT: &str = "\
As in: book_desk audit --store office.db

Output:
  epoch N
  member GROUP MEMBER               a direct membership, in byte order of the lines
  PATH owner OWNER [label TEXT]     a resource, in byte order of the paths; - where it has no owner
    protected grant|deny [not] WHO NAME ..   its protected list, in order
    own grant|deny [not] WHO NAME ..         its own list, in order
WHO is a person, a group, or one of all, authenticated, unauthenticated, owner, self.
With --at, --books or --labels the resources alone are printed, and the store has to be there. TEXT is a JSON text.

Told on standard error, on a line
  store: FAULT          the store can't be had or read: other-version, no-store, memory, or store
  control: failed       with --control, also of the other commands: nobody answers at PATH as a control does
  audit: not-found      nothing is there at PATH
  audit: unavailable    with --at, --books or --labels: memory was refused, or the store failed
  output: write         it could not be told

Status: 0 printed; 1 nothing is there; 2 usage; 3 the store, memory, or a failed write.
";

pub(crate) const BOOKS: &str = "No card without an own list";

pub(crate) const LABELS: &str = "Also the labels";

pub(crate) const MIGRATE: &str = "Makes a store of version 1 one of version 2";

pub(crate) const MIGRATE_TEXT: &str = "\
Version 1 knew eight privileges: each entry that has read, which is x-read-texts and x-read-names now, gets x-read-names
too. Nothing else changes. While no program is at work on the store, copy FILE, and FILE-wal where it is there; then:
  book_desk migrate --store office.db

Output:
  version 2, entries N
N is the number of the entries of all lists. The epoch stays, and so sync tokens stay good.

Told on standard error, on a line, where nothing was changed
  store: FAULT          the store can't be had: other-version, no-store, memory, or store
or where it was migrated
  output: write         it could not be told
A file that is empty or missing is told as no-store, and is neither made nor written.

Status: 0 migrated; 2 usage; 3 the store, memory, or a failed write.
";

pub(crate) const WHY: &str = "Tells why a caller may do something in a store, or may not";

pub(crate) const ASKED_STORE: &str = "The file of the store, which has to be there";

pub(crate) const ASKED_CONTROL: &str =
    "The path of the control of the server that has the store, in the place of --store";

pub(crate) const CALLER: &str = "The name of a person, or - for nobody";

pub(crate) const WHAT: &str = "A method, or a privilege";

pub(crate) const RESOURCE: &str = "The path of the resource";

pub(crate) const DESTINATION: &str = "The path to which COPY or MOVE leads";

pub(crate) const WHY_TEXT: &str = "\
It decides as serve does, and changes nothing. As in:
  book_desk why --store office.db bob GET /books/sales/b.vcf
A METHOD is GET, HEAD, OPTIONS, PUT, PROPFIND, PROPPATCH, ACL, COPY, MOVE, DELETE, MKCOL, REPORT:sync-collection,
REPORT:group-members, REPORT:effective, REPORT:names, PROPFIND:acl, PROPFIND:current-user-privilege-set, or both of these
with a comma. A PRIVILEGE is one that explain knows; it wants a PATH that is there. COPY and MOVE may replace a card.

Output:
  granted | denied NAME at PATH by N | denied NAME at PATH, none granted
and then for each need, and for each of its leaves
  need NAME .. at PATH
   LEAF granted by N, M at PATH | LEAF denied by N, M at PATH | LEAF denied, none granted
    protected|own grant|deny [not] WHO NAME ..
    by PERSON in GROUP ..
N is the number of the entry in the list in force, from 1, and M in the list that stands at PATH. The last line has the
fewest groups by which the caller belongs to WHO, where there are any. With --json each line is an object; the manual has
its keys.

Told on standard error, on a line
  why: unknown-caller     the caller is no person
  why: unknown-privilege  it is neither a method nor a privilege
  why: not-found          nothing is there
  why: not-allowed        the resource does not allow the method
  why: no-parent          what would hold the resource is not there
  why: bad-request        the method lacks its report
  why: unavailable        memory was refused, or the store failed
  store: FAULT            as audit
  output: write           it could not be written

Status: 0 answered, 1 the question was refused, 2 usage, 3 memory, the store, or a failed write.
";

pub(crate) const WHO: &str = "Tells to whom a privilege is granted in a store";

pub(crate) const PRIVILEGE: &str = "The privilege";

pub(crate) const JSON: &str = "Each line is an object";

pub(crate) const DENIED: &str = "Tells those to whom it is denied";

pub(crate) const WHO_TEXT: &str = "\
It decides as serve does, and changes nothing. As in:
  book_desk who --store office.db read /books/sales
A PRIVILEGE is one that explain knows, and something has to be there at PATH.

Output: the path of each person, or nobody, on a line, and below it for each leaf of the privilege the lines of why.
With --json each line is an object; the manual has its keys.

Told on standard error, on a line
  who: unknown-privilege  there is no such privilege
  who: not-found          nothing is there
  who: unavailable        memory was refused, or the store failed
  store: FAULT            as audit
  output: write           it could not be written

Status: 0 answered, 1 the question was refused, 2 usage, 3 memory, the store, or a failed write.
";

pub(crate) const RIGHTS: &str = "Tells who holds which rights in a store";

pub(crate) const BELOW: &str = "Only at this path and below it";

pub(crate) const PERSON: &str = "Only those of this person";

pub(crate) const SHARED: &str =
    "Only cards whose own list gives somebody more than their book does";

pub(crate) const RIGHTS_TEXT: &str = "\
It decides as serve does, and changes nothing. As in:
  book_desk rights --store office.db --at /books/sales

Output, in byte order of the paths, a line for each resource and whoever holds a right there
  PATH PERSON|nobody NAME ..
  PATH of N PERSON|nobody NAME ..   of N cards of a book whose owner and own list are equal; PATH is the first
The names are privileges of explain, as few as tell the rights. With --json each line is an object; the manual has its
keys.

Told on standard error, on a line
  rights: unknown-caller  PERSON is no person
  rights: not-found       nothing is there
  rights: unavailable     memory was refused, or the store failed
  store: FAULT            as audit
  output: write           it could not be written

Status: 0 answered, 1 the question was refused, 2 usage, 3 memory, the store, or a failed write.
";

pub(crate) const ASK: &str = "Prints what a decision rests on as a text that explain reads";

pub(crate) const ASK_TEXT: &str = "\
It changes nothing. As in:
  book_desk ask --store office.db bob /books/sales/b.vcf read | book_desk explain

Output: the memberships on chains of groups to the caller, the caller, the owner, the resource where it is a principal,
the leaves of the privileges, and the list in force in order, as explain reads them.

Told on standard error, on a line
  ask: unknown-privilege  there is no such privilege
  ask: unknown-caller     the caller is no person
  ask: not-found          nothing is there
  ask: too-many           it is more than explain takes, or an entry names no privilege; why answers then
  ask: unavailable        memory was refused, or the store failed
  store: FAULT            as audit
  output: write           it could not be written

Status: 0 answered, 1 the question was refused, 2 usage, 3 memory, the store, or a failed write.
";

pub(crate) const DIFFERS: &str = "Tells what adopting a policy would change in a store";

pub(crate) const DIFFERS_STRICT: &str = "A difference ends with status 1";

pub(crate) const DIFFERS_TEXT: &str = "\
It adopts the policy over a copy of the store in memory, and changes nothing. As in:
  book_desk differs --store office.db examples/policies/office.toml

Output: what the policy does not name and leaves as it is; what the store has and would lose after -, what it would have
after +, and the rights that somebody would lose or gain, in byte order of the paths; then how many lines of these there
were, or that nothing would change
  stays member GROUP MEMBER
  stays PATH
  stays PATH  own grant|deny [not] WHO NAME ..
  - member GROUP MEMBER
  - PATH owner OWNER
  - PATH label TEXT
  - PATH  protected|own grant|deny [not] WHO NAME ..
  lost|gained PATH PERSON|nobody NAME ..
  lost|gained PATH of N PERSON|nobody NAME ..   of N cards that are alike, as rights tells them
  differs in N | unchanged
TEXT is a JSON text.

Told on standard error, on a line
  input: read           the policy could not be read
  store: FAULT          as audit
  input: not-utf-8      the policy is not UTF-8
  policy: FAULT         as import
  adopt: full           the policy would not be adopted
  output: write         it could not be written

Status: 0 told; 1 the policy is refused, or with --strict there is a difference; 2 usage; 3 memory, the store, or a
failed read or write.
";

pub(crate) const DUMP: &str = "Prints a store as text";

pub(crate) const DUMP_TEXT: &str = "\
As in: book_desk dump --store office.db > office.jsonl

Output, a JSON object a line
  {\"epoch\":N}
  {\"path\":PATH,..}   each resource, in byte order of the paths, with what it has of owner, label, protected, own,
                     members, number, removed and text; entries have the keys of a policy
  {\"lines\":N}       how many lines come before it: a text that lacks this line was cut

Told on standard error, on a line
  store: FAULT          as audit
  output: write         it could not be written; a beginning of it may be

Status: 0 printed; 2 usage; 3 the store, memory, or a failed write.
";

pub(crate) const SHOW: &str = "Prints one resource of a store as its line of the dump";

pub(crate) const SHOW_TEXT: &str = "\
As in: book_desk show --store office.db /books/sales/b.vcf

Output: the line of dump for PATH.

Told on standard error, on a line
  show: not-found       nothing is there
  show: unavailable     memory was refused, or the store failed
  store: FAULT          as audit
  output: write         it could not be written

Status: 0 printed, 1 nothing is there, 2 usage, 3 memory, the store, or a failed write.
";

pub(crate) const NEW_STORE: &str = "The file of the store that is made";

pub(crate) const DUMP_WORD: &str =
    "The file of a dump; without it, or where it is -, standard input";

pub(crate) const OWNER: &str =
    "What the principal FROM owns, TO owns: each card and, without --at, each book";

pub(crate) const OWNED_AT: &str = "The name of the book whose cards alone get another owner";

pub(crate) const WITHOUT: &str = "The person, by path, is taken out";

pub(crate) const HEIR: &str =
    "The person or group that owns what they owned; without it, nobody does";

pub(crate) const FORGET_REMOVED: &str = "Removed names are left out";

pub(crate) const NEW_EPOCH: &str =
    "The epoch rises by 1048576, so that every token that was given is refused";

pub(crate) const ABOVE: &str = "With --new-epoch: the epoch is above N too";

pub(crate) const LOAD: &str = "Makes a store of a dump";

pub(crate) const LOAD_TEXT: &str = "\
It reads what dump wrote, and makes the store in a file that is not there, or has no byte. As in:
  book_desk dump --store office.db | book_desk load --store copy.db
  book_desk load --store new.db --without /people/ann --heir /people/bo office.jsonl
The store stands under another name, FILE.new, until it was read again and has exactly the text of the dump. The options
change the Office on the way, in the order in which help tells them. With --owner, --without and --forget-removed the epoch
rises by one at least. An entry that names a person who is taken out goes; an inverted one becomes one for all, since an
inverted deny that went would open what it closes.

Output, a line for each thing that the options changed
  owner PATH FROM -> TO         another owner; TO is nobody where there is none
  person PATH                   a person who is taken out
  gone PATH  protected|own ENTRY
  all PATH  protected|own ENTRY   an inverted entry, as it was, that is one for all now
  member GROUP PERSON           a person who is a member no more
  removed PATH N                how many removed names a book had
  epoch OLD -> NEW              with --new-epoch

Told on standard error, on a line
  input: read               the dump could not be read
  line N: FAULT             the dump is refused, at the first line that has a fault: bad-line, bad-name, order,
                            unknown-principal, too-many, too-long or last-line; 'key: KEY' on a second line tells where
  load: unknown-principal   an option names one that the dump does not have, or the heir is taken out
  load: last-number         the epoch would pass its last number
  load: exists              the file has bytes, or its log holds a commit
  load: refused             what was read again is no Office, or not that of the dump; nothing was made
  store: FAULT              memory, or store
  output: write             it could not be told

Status: 0 made; 1 the dump or an option is refused, or the file is there; 2 usage; 3 memory, the store, or a failed read or
write.
";

pub(crate) const COMPACT: &str = "Writes a store anew, without what was removed";

pub(crate) const COMPACT_TEXT: &str = "\
As in: book_desk compact --store office.db
The Office stays, with its epoch and all numbers. It is written to FILE.new, read again and compared, and that file then
takes the name of the store: a stop leaves the old one or the new one. No text, label or path that was removed stands in the
new file, but for removed names, which --forget-removed leaves out too; the epoch then rises. What a disk keeps of the old
file is not overwritten.

Output: size OLD -> NEW, the bytes of the files.

Told on standard error, on a line
  store: FAULT          as audit
  copy: refused         what was read again is not the Office; the store is as it was
  copy: last-number     the epoch would pass its last number
  output: write         it could not be told

Status: 0 written; 2 usage; 3 the store, memory, or a failed write.
";

pub(crate) const BACKUP_TO: &str = "The file of the copy, which is not there";

pub(crate) const BACKUP_CHECK: &str = "The file of a copy, which is compared with the store";

pub(crate) const BACKUP: &str = "Copies a store, or compares a copy with it";

pub(crate) const BACKUP_TEXT: &str = "\
One of the options is needed. As in:
  book_desk backup --store office.db --to office-monday.db
  book_desk backup --store office.db --check office-monday.db
The copy is one file that opens as the same Office, with its epoch and all numbers. It stands under another name, NEW.new,
until it was read again and compared; a stop leaves NEW missing or whole. Of COPY a copy in memory is read, and it is not
changed. Nothing is printed.

Told on standard error, on a line
  store: FAULT          as audit
  backup: exists        NEW is there
  backup: differs       the copy has another Office
  copy: refused         what was read again is not the Office; nothing was made
  output: write         it could not be told

Status: 0 copied, or equal; 1 NEW is there, or the copy differs; 2 usage; 3 the store, memory, or a failed write.
";

pub(crate) const CAUSE: &str = "Tells on standard error why the store can't be had, on a line more";

pub(crate) const RESTORE_FROM: &str = "The file of a backup, which is not changed";

pub(crate) const RESTORED: &str = "The path of a card or of a book";

pub(crate) const RESTORE: &str = "Puts cards and books of a backup into a store";

pub(crate) const RESTORE_TEXT: &str = "\
As in: book_desk restore --store office.db --from office-monday.db /books/sales/bo.vcf /books/law
A card gets the text, label, owner and own list of the backup, and the next number of its book, so that synced copies see it.
A book gets the label, owner and own list of the backup, and each card that the backup has in it is restored; other cards
stay. A book that is not there is made, with the protected list of the backup too. The epoch rises where an owner or a list
changes. The store is written anew as by compact: a stop leaves the old one or the new one.

Output, in the order of paths
  card PATH number N
  book PATH
  epoch OLD -> NEW      where it rose

Told on standard error, on a line; nothing was done then
  store: FAULT                 as audit, of the store or of the backup
  restore: not-found           the backup has no card and no book at a path
  restore: no-parent           the store has no book for a card
  restore: unknown-principal   an owner, or whom an entry names, is not in the store
  restore: full                a book would have more cards, or the store more books, than it may
  restore: last-number         the epoch would pass its last number
  load: refused                what was read again is not what was to be; the store is as it was
  output: write                it could not be told

Status: 0 restored; 1 refused; 2 usage; 3 a store, memory, or a failed write.
";

pub(crate) const DOCTOR: &str = "Tells whether a store is sound, and how large it is";

pub(crate) const DOCTOR_TEXT: &str = "\
It reads a copy of the store in memory, and changes nothing. As in: book_desk doctor --store office.db

Output of a sound store, a line each
  epoch N, persons N, groups N, books N, cards N, removed N, members N, entries N
  file N bytes, log N bytes, mode MODE
  pages N of N bytes, N free    what compact gives back
  open N bytes                  about as much memory as an open wants

Told on standard error, on a line
  store: FAULT              as audit
  store: TABLE ROW: RULE    the first row that breaks a rule of a sound store
  cause: CAUSE              as by --cause: why it can't be had, or that others may read the file
  output: write             it could not be told

Status: 0 sound; 2 usage; 3 the store, memory, or a failed write.
";

pub(crate) const DENIALS: &str = "Tells who was refused what, from a log";

pub(crate) const LOG_WORD: &str = "The file of a log that --log of serve or pipe wrote";

pub(crate) const SINCE: &str = "Only denials that are not before this time";

pub(crate) const DENIALS_TEXT: &str = "\
It reads FILE line by line. As in: book_desk denials --since 2026-11-29T00:00:00.000Z office.log

Output, a line for each caller, method and path, and what was denied there by which entry, in byte order of what follows LAST
  N FIRST LAST CALLER METHOD PATH: RESOURCE PRIVILEGE by own|protected entry M at FROM: ENTRY
  N FIRST LAST CALLER METHOD PATH: RESOURCE PRIVILEGE, no entry grants it
N is how often, FIRST and LAST are when, and - stands for nobody, and for what was not read. ENTRY is JSON, as ACL takes it.
With --json each line is an object; the manual has its keys.

Told on standard error, on a line
  input: read           FILE could not be read, or memory was refused
  line N: bad-line      the line is none of a log, to the letter; nothing was printed
  output: write         it could not be written

Status: 0 printed; 1 a line is none; 2 usage, or TIME is none; 3 memory, or a failed read or write.
";

pub(crate) const LOG: &str =
    "A file to which a line of JSON is added for each reply; it is made where it is missing";

pub(crate) const PIPE: &str = "Serves the requests on standard input";

pub(crate) const PIPE_TEXT: &str = "\
Input: requests of HTTP/1.1 (RFC 9112), one after the other. A file is given by <, as in:
  book_desk pipe --store office.db --policy examples/policies/office.toml < requests.txt
The field x-office-caller has the bare name of the person who asks; without it, nobody asks. The policy is adopted before
the first request; in a store that has had none nobody may do anything. Without --store the store is in memory: it is
empty when the program starts, and is gone when it ends.

Output: the replies, in order. A request that can't be read as one closes the stream after its reply.

Told on standard error, each on a line
  input: read           the policy could not be read
  store: FAULT          the store can't be had: other-version, no-store, memory, or store
  input: not-utf-8      the policy is not UTF-8
  policy: FAULT         the policy is refused: not-toml, other-version, bad-key, bad-name, name-twice,
                        unknown-principal, unknown-resource, unknown-privilege, too-many, or memory
  adopt: FAULT          the policy was not adopted: full, or unavailable
  log: open             the log can't be opened
  stream: FAULT         serving ended: memory, read, or write

Status: 0 each request was answered, or the stream closed after a reply; 1 the input ends within a request, or the
policy is refused; 2 usage; 3 the store, memory, or a failed read or write.
";

pub(crate) const SERVE: &str = "Serves connections to 127.0.0.1 or to a Unix socket";

pub(crate) const SERVE_TEXT: &str = "\
It listens on 127.0.0.1 or with --socket at PATH, or on both, prints 'listening on 127.0.0.1:PORT', then 'listening on
unix:PATH', and serves so many connections, or with --forever without end; one of the two is needed. They are served one
after the other, or with --at-once so many together, each as pipe serves its input. With --idle, which wants --at-once, one
that moves no byte for so many seconds is closed, and one whose request is not whole 30 seconds after its first byte. As in:
  book_desk serve --port 8080 --connections 100 --store office.db --policy examples/policies/office.toml
  book_desk serve --port 8080 --forever --at-once 64 --idle 75 --store office.db
  book_desk serve --socket office.sock --mode 0660 --forever --at-once 64 --idle 75 --store office.db
  curl -H 'x-office-caller: ann' -H 'Expect:' -X OPTIONS -i http://127.0.0.1:8080/books/sales
Who can reach the port can name any caller: it is for a gateway on the same machine, which sets the field
x-office-caller to the person that it knows, and takes it out of what strangers send. Nothing else may reach the port. At
the socket it is the mode of its file that says who may: 0600 without --mode.
A copy of the store that is served is made at its control (POST /backup), and else by backup.
With --control, which wants --at-once, whoever may open the socket of mode 0600 at PATH asks the server what the commands
tell of a store, has it adopt a policy, and ends it (the manual page, CONTROL):
  curl --unix-socket office.control http://localhost/health
  book_desk import --control office.control policy.toml

Told on standard error, each on a line: what pipe tells, 'stream: FAULT' for each connection that failed, which ends no
other, 'listen: failed' where the port or the socket can't be had or a connection can't be taken, 'socket: taken' where
another server answers at PATH, and so 'control: failed' and 'control: taken'.

Status: 0 all connections were served, also those that ended within a request; 1 the policy is refused; 2 usage;
3 the store, memory or a failed read or write, also in one connection, or listening failed.
";

pub(crate) const POLICY: &str = "The file of a policy in TOML, which is adopted first";

pub(crate) const POLICY_WORD: &str = "The file of the policy, in TOML";

pub(crate) const FOUNDED_STORE: &str =
    "The file of the store, which has a log beside it, FILE-wal; an empty or missing one is founded";

pub(crate) const FIRST_STORE: &str = "The file of the store, of version 1";

pub(crate) const KEPT_STORE: &str =
    "The file of the store, which has a log beside it, FILE-wal; an empty or missing one is founded; without it the store is in memory";

pub(crate) const PORT: &str = "The port, 0 to 65535; 0 takes a free one";

pub(crate) const SOCKET: &str = "The path of a Unix socket, in the place of the port or beside it";

pub(crate) const MODE: &str =
    "The permissions of the socket, as 0660; 0600 without it; wants --socket";

pub(crate) const CONNECTIONS: &str = "How many connections are served, 1 to 10000";

pub(crate) const FOREVER: &str = "Connections are served without end";

pub(crate) const AT_ONCE: &str = "How many connections are served at once, 1 to 1000";

pub(crate) const IDLE: &str =
    "After how many seconds an idle connection is closed, 1 to 3600; wants --at-once";

pub(crate) const CONTROL: &str =
    "The path of a Unix socket at which the server is asked, and administered; wants --at-once";
